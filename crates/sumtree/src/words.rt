//! The words of a script: numbers, bytes and amounts, and how they are shown.
use crate::Stop;
use amount::Amount;
use hexadecimal::Hex;
use numbering::{Closing, Key, Place};
use std::alloc::Global;
use std::fmt;

// A number in decimal digits, and nothing else.
pub(crate) fn number(word: &str) -> Result<u64, Stop> {
    if !word.bytes().all(|b| b.is_ascii_digit()) {
        return Err(Stop::Unreadable);
    }
    word.parse::<u64>().map_err(|_| Stop::Unreadable)
}

pub(crate) fn number32(word: &str) -> Result<u32, Stop> {
    u32::try_from(number(word)?).map_err(|_| Stop::Unreadable)
}

pub(crate) fn closing(word: &str) -> Result<Closing, Stop> {
    Ok(Closing(number32(word)?))
}

pub(crate) fn key(closing_word: &str, place: &str) -> Result<Key, Stop> {
    Ok(Key {
        closing: closing(closing_word)?,
        place: Place(number32(place)?),
    })
}

fn hex_digit(b: u8) -> Result<u8, Stop> {
    match b {
        b'0'..=b'9' => Ok(b - b'0'),
        b'a'..=b'f' => Ok(b - b'a' + 10),
        _ => Err(Stop::Unreadable),
    }
}

fn hex_byte(high: u8, low: u8) -> Result<u8, Stop> {
    Ok((hex_digit(high)? << 4) | hex_digit(low)?)
}

// The bytes of pairs of hexadecimal digits.
fn hex(heap: Global, digits: &[u8]) -> Result<Vec<u8>, Stop> {
    let (pairs, rest) = digits.as_chunks::<2>();
    if !rest.is_empty() {
        return Err(Stop::Unreadable);
    }
    pairs
        .iter()
        .map(|[high, low]| hex_byte(*high, *low))
        .try_collect(heap)
}

// COUNT*BB: as many bytes, each the same.
fn repeated(heap: Global, count: &str, byte: &str) -> Result<Vec<u8>, Stop> {
    let [high, low] = byte.as_bytes() else {
        return Err(Stop::Unreadable);
    };
    let count = number32(count)?;
    let byte = hex_byte(*high, *low)?;
    Ok(vec![in heap; byte; count as usize]?)
}

// Bytes: hexadecimal, `-` for none, or COUNT*BB.
pub(crate) fn bytes(heap: Global, word: &str) -> Result<Vec<u8>, Stop> {
    match word {
        "" => Err(Stop::Unreadable),
        "-" => Ok(Vec::new(heap)),
        _ => match word.split_once('*') {
            Some((count, byte)) => repeated(heap, count, byte),
            None => hex(heap, word.as_bytes()),
        },
    }
}

// Numbers joined by `+`, as an amount is written.
pub(crate) fn numbers(heap: Global, word: &str) -> Result<Vec<u64>, Stop> {
    word.split('+').map(|part| number(part)).try_collect(heap)
}

// Bytes as a script writes them.
#[derive(Clone, Copy)]
pub(crate) struct Shown<'a>(pub &'a [u8]);

impl fmt::Display for Shown<'_> {
    fn fmt<W: fmt::Write>(&self, f: &mut fmt::Formatter<W>) -> fmt::Result {
        if self.0.is_empty() {
            return write!(f, "-");
        }
        let bytes = Hex(self.0);
        write!(f, "{bytes}")
    }
}

// An amount as a script writes it.
#[derive(Clone, Copy)]
pub(crate) struct ShownAmount<A>(pub A);

impl<A: Amount> fmt::Display for ShownAmount<A> {
    fn fmt<W: fmt::Write>(&self, f: &mut fmt::Formatter<W>) -> fmt::Result {
        for i in 0..A::count() {
            let n = self.0.number_at(i);
            let joint = if i == 0 { "" } else { "+" };
            write!(f, "{joint}{n}")?;
        }
        Ok(())
    }
}
