//! A ledger, read from the lines of a text.
use amount::Amount;
use anyhow::{anyhow, bail};
use node::types::Line;
use numbering::Closing;
use row::Single;
use std::alloc::{AllocError, Global};

#[derive(Drop)]
pub(crate) struct Ledger {
    pub closing: Closing,
    pub depth: u32,
    pub lines: Vec<Line<Single>>,
}

// The closing and the depth.
fn head_of(words: &[&str]) -> Option<(Closing, u32)> {
    let ["closing", closing, "depth", depth, ..] = words else {
        return None;
    };
    Some((Closing(closing.parse().ok()?), depth.parse().ok()?))
}

// No TryFrom: the type and the trait are both of other crates.
fn line_of(words: &[&str]) -> Option<Line<Single>> {
    let [customer, salt, cents, ..] = words else {
        return None;
    };
    Some(Line {
        customer: customer.parse::<u128>().ok()?.to_be_bytes(),
        salt: salt.as_bytes().try_into().ok()?,
        balance: Single::of_numbers(&[cents.parse().ok()?])?,
    })
}

// The words that a row may have to say: whatever follows the fourth is passed over, and takes no memory.
fn words(heap: Global, text: &str) -> Result<Vec<&str>, AllocError> {
    text.split(' ').take(4).collect(heap)
}

fn read_line(heap: Global, row: &str) -> anyhow::Result<Line<Single>> {
    line_of(&words(heap, row)?).ok_or_else(|| {
        anyhow!("a line is a customer number, a salt of sixteen characters and cents")
    })
}

impl Ledger {
    pub(crate) fn read(heap: Global, text: &str) -> anyhow::Result<Ledger> {
        let mut rows = text.lines();
        let first = words(heap, rows.next().unwrap_or(""))?;
        let Some((closing, depth)) = head_of(&first) else {
            bail!("the ledger begins with its closing and its depth");
        };
        Ok(Ledger {
            closing,
            depth,
            lines: rows.map(|row| read_line(heap, row)).try_collect(heap)?,
        })
    }
}
