//! The file of a line: its layout, and a reader of its fields.
//!
//! `specs/Layout` has the layout once, `specs/Fields` where each field stands. The reader hands out parts of the file
//! itself and copies nothing; it judges no content.
#![tactic(auto)]

ghost use Rattle.std.specs.Prelude.{◌≡◌, ℕ, ◌+◌, ◌-◌, ◌*◌, ◌<◌, ◌≤◌, length};
ghost use Rattle.std.specs.Iterator.{at_most};
ghost use Rattle.file.specs.Layout.{file_length};
ghost use Rattle.file.specs.Fields.{offset_at, length_at, HasIndex, bytes_of, field_count};

pub mod types;

use amount::Amount;
use types::{Field, Found};

// Goes through the fields of a file.
#[derive(Drop)]
pub struct Fields<'a> {
    file: &'a [u8],
    width: usize,
    count: usize,
    index: usize,
    ghost narrow: { (width ≤ 80) × (count ≤ 24) × (index ≤ count) },
    ghost whole: { (1 ≤ count → (4 ≤ count) × (length file.now ≡ file_length width (count - 4))) },
}

// Where field i begins, and its length. Fields are counted here, since there are as many steps as the depth is.
fn span(width: usize, i: usize) -> (usize, usize)
    requires { (width ≤ 80) × (i < 24) }
    ensures offset { result.0 ≡ offset_at width i }
    ensures len { result.1 ≡ length_at width i }
{
    match i {
        0 => (0, 11),
        1 => (11, 16),
        2 => (27, 16),
        3 => (43, width),
        _ => (43 + width + (i - 4) * (32 + width), 32 + width),
    }
}

// The part as field i.
fn named<'a>(i: usize, part: &'a [u8]) -> Field<'a>
    ensures which { HasIndex i result }
    ensures bytes { bytes_of result ≡ part.now }
{
    match i {
        0 => Field::Head(part),
        1 => Field::Customer(part),
        2 => Field::Salt(part),
        3 => Field::Balance(part),
        _ => Field::Step(part),
    }
}

impl<'a> Fields<'a> {
    // A reader of a file of known depth, before its first field. A file of another length, or a depth over 20, has none.
    pub fn new<A: Amount>(file: &'a [u8], depth: u32) -> Fields<'a>
        ensures file { result.file.now ≡ file.now }
        ensures width { result.width ≡ A.kind.width }
        ensures count { result.count ≡ field_count A.kind.width depth (length file.now) }
        ensures index { result.index ≡ 0 }
    {
        let width = A::width();
        let steps = depth as usize;
        let fits = depth <= 20 && file.len() == 43 + width + steps * (32 + width);
        Fields {
            file,
            width,
            count: if fits { 4 + steps } else { 0 },
            index: 0,
        }
    }
}

impl<'a> Iterator for Fields<'a> {
    ghost use Rattle.file.specs.Steps.{Steps, left};

    type Item = Found<'a>;

    ghost next_gives = { Steps };

    ghost remaining = { λ s. at_most (left s) };

    // The next field, or nothing after the last.
    fn next(&mut self) -> Option<Found<'a>> {
        let i = self.index;
        if i >= self.count {
            return None;
        }
        let (offset, len) = span(self.width, i);
        let file = self.file;
        let part = &file[offset..offset + len];
        self.index = i + 1;
        Some(Found {
            field: named(i, part),
            offset,
        })
    }
}
