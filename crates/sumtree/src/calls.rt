//! The calls of a script, read from the words of a line.
use crate::Stop;
use crate::words::{bytes, closing, key, number, number32, numbers};
use digest::kinds::AnyDigest;
use numbering::{Closing, Key, Leaf};
use std::alloc::Global;
use store::limits::Limits;

#[derive(Clone, Copy)]
pub(crate) enum AmountKind {
    Single,
    Purse,
}

impl TryFrom<&str> for AmountKind {
    type Error = Stop;

    fn try_from(word: &str) -> Result<AmountKind, Stop> {
        match word {
            "single" => Ok(AmountKind::Single),
            "purse" => Ok(AmountKind::Purse),
            _ => Err(Stop::Unreadable),
        }
    }
}

// No TryFrom: the type and the trait are both of other crates.
fn digest_kind(word: &str) -> Result<AnyDigest, Stop> {
    match word {
        "rehearsal" => Ok(AnyDigest::Rehearsal),
        "sha256" => Ok(AnyDigest::Sha256),
        _ => Err(Stop::Unreadable),
    }
}

#[derive(Clone, Copy)]
pub(crate) enum StoreKind {
    Flat,
    // with so many records
    Chained(u32),
}

// A store as a script describes it, with the length of its memory.
#[derive(Clone, Copy)]
pub(crate) struct Shape {
    pub kind: StoreKind,
    pub limits: Limits,
    pub memory: u64,
}

#[derive(Drop)]
pub(crate) enum Call {
    Use(AmountKind, AnyDigest),
    Digest(Vec<u8>),
    Amount(Vec<u8>),
    Join(Vec<u64>, Vec<u64>),
    Measure(Shape),
    Store(Shape),
    Put(Key, Vec<u8>),
    Get(Key, u32),
    Held(Closing),
    Clear(Closing),
    Room,
    Custodian(Shape, Shape),
    Open(Closing, u32),
    Enter(Vec<u8>, Vec<u8>, Vec<u64>),
    Close,
    Abandon,
    Sheet(Closing, u32),
    Issue(Closing, Leaf, u32),
    Withdraw(Closing),
    Check(Vec<u8>, Vec<u8>),
    Fields(u32, Vec<u8>),
    Auditor(Shape, Shape),
    Lay(Vec<u8>),
    Present(Vec<u8>),
    Tally,
    Texts(u32),
}

fn limits(width: &str, first: &str, last: &str, bound: &str) -> Result<Limits, Stop> {
    Ok(Limits {
        width: number(width)? as usize,
        first: number32(first)?,
        last: number32(last)?,
        bound: number32(bound)?,
    })
}

fn read_shape(heap: Global, word: &str) -> Result<Shape, Stop> {
    let parts: Vec<&str> = word.split(':').collect(heap)?;
    match parts.as_slice() {
        ["flat", width, first, last, bound, memory] => Ok(Shape {
            kind: StoreKind::Flat,
            limits: limits(width, first, last, bound)?,
            memory: number(memory)?,
        }),
        ["chained", width, first, last, bound, count, memory] => Ok(Shape {
            kind: StoreKind::Chained(number32(count)?),
            limits: limits(width, first, last, bound)?,
            memory: number(memory)?,
        }),
        _ => Err(Stop::Unreadable),
    }
}

// A store that is made: its memory has to fit 32 bits.
fn made_shape(heap: Global, word: &str) -> Result<Shape, Stop> {
    let shape = read_shape(heap, word)?;
    u32::try_from(shape.memory).map_err(|_| Stop::Unreadable)?;
    Ok(shape)
}

fn one_word(name: &str) -> Result<Call, Stop> {
    match name {
        "room" => Ok(Call::Room),
        "close" => Ok(Call::Close),
        "abandon" => Ok(Call::Abandon),
        "tally" => Ok(Call::Tally),
        _ => Err(Stop::Unreadable),
    }
}

fn two_words(heap: Global, name: &str, word: &str) -> Result<Call, Stop> {
    match name {
        "digest" => bytes(heap, word).map(Call::Digest),
        "amount" => bytes(heap, word).map(Call::Amount),
        "lay" => bytes(heap, word).map(Call::Lay),
        "present" => bytes(heap, word).map(Call::Present),
        "measure" => read_shape(heap, word).map(Call::Measure),
        "store" => made_shape(heap, word).map(Call::Store),
        "held" => closing(word).map(Call::Held),
        "clear" => closing(word).map(Call::Clear),
        "withdraw" => closing(word).map(Call::Withdraw),
        "texts" => number32(word).map(Call::Texts),
        _ => Err(Stop::Unreadable),
    }
}

fn three_words(heap: Global, name: &str, one: &str, two: &str) -> Result<Call, Stop> {
    Ok(match name {
        "use" => Call::Use(AmountKind::try_from(one)?, digest_kind(two)?),
        "join" => Call::Join(numbers(heap, one)?, numbers(heap, two)?),
        "check" => Call::Check(bytes(heap, one)?, bytes(heap, two)?),
        "fields" => Call::Fields(number32(one)?, bytes(heap, two)?),
        "open" => Call::Open(closing(one)?, number32(two)?),
        "sheet" => Call::Sheet(closing(one)?, number32(two)?),
        "custodian" => Call::Custodian(made_shape(heap, one)?, made_shape(heap, two)?),
        "auditor" => Call::Auditor(made_shape(heap, one)?, made_shape(heap, two)?),
        _ => return Err(Stop::Unreadable),
    })
}

fn four_words(heap: Global, name: &str, one: &str, two: &str, three: &str) -> Result<Call, Stop> {
    Ok(match name {
        "put" => Call::Put(key(one, two)?, bytes(heap, three)?),
        "get" => Call::Get(key(one, two)?, number32(three)?),
        "issue" => Call::Issue(closing(one)?, Leaf(number32(two)?), number32(three)?),
        "enter" => Call::Enter(bytes(heap, one)?, bytes(heap, two)?, numbers(heap, three)?),
        _ => return Err(Stop::Unreadable),
    })
}

// The call of a line, where it is one. The words are told by how many there are first: with one match over all the proof did not
// close in two minutes.
pub(crate) fn read_call(heap: Global, line: &str) -> Result<Call, Stop> {
    let words: Vec<&str> = line.split(' ').collect(heap)?;
    match words.as_slice() {
        [name] => one_word(name),
        [name, one] => two_words(heap, name, one),
        [name, one, two] => three_words(heap, name, one, two),
        [name, one, two, three] => four_words(heap, name, one, two, three),
        _ => Err(Stop::Unreadable),
    }
}
