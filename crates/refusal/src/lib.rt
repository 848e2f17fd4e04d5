//! Refusals: what a call says where it does not answer, and how an ordered table of them is read.
//!
//! Every call of the library refuses with a `Refusal`; `specs/Refusals` has its number and offset, and `specs/Tables`
//! what it means that the first row of a table decides. A new refusal is a new case here and in those two.
#![tactic(auto)]

ghost use Rattle.std.specs.Prelude.{◌≡◌};
ghost use Rattle.refusal.specs.Refusals.{number_of, offset_of};

pub mod cases;

use cases::Refusal;
use std::fmt;

impl Refusal {
    // Its number, 1 to 23, as scripts and pages show it; no call takes one.
    pub fn number(self) -> u8
        ensures { result ≡ number_of self }
    {
        match self {
            Refusal::TextTooLong => 1,
            Refusal::MemoryUnfit => 2,
            Refusal::KeyOutside => 3,
            Refusal::WrongWidth => 4,
            Refusal::Full => 5,
            Refusal::BadAmount(_) => 6,
            Refusal::JoinUnwritable(_) => 7,
            Refusal::BadLimits => 8,
            Refusal::AlreadyStands => 9,
            Refusal::EightStand => 10,
            Refusal::StoreUnsuited => 11,
            Refusal::BadIdentity => 12,
            Refusal::LeavesTaken => 13,
            Refusal::NotStanding => 14,
            Refusal::BufferTooShort => 15,
            Refusal::SheetLength => 16,
            Refusal::OtherKind => 17,
            Refusal::FileLength => 18,
            Refusal::OtherSheet => 19,
            Refusal::LeafOutside => 20,
            Refusal::RootDiffers => 21,
            Refusal::TwoTexts => 22,
            Refusal::TextsShown => 23,
        }
    }

    // Where in what was handed in it points: 0 but for an amount or a joining.
    pub fn offset(self) -> usize
        ensures { result ≡ offset_of self }
    {
        match self {
            Refusal::BadAmount(at) => at,
            Refusal::JoinUnwritable(at) => at,
            _ => 0,
        }
    }

    // What it says to a person.
    fn words(self) -> &'static str {
        match self {
            Refusal::TextTooLong => "the text is longer than 65,536 bytes",
            Refusal::MemoryUnfit => "the memory is too short, or a limit of stores is broken",
            Refusal::KeyOutside => "the key or the closing lies outside the store's",
            Refusal::WrongWidth => "the record or the buffer is not of the store's width",
            Refusal::Full => "there is no room",
            Refusal::BadAmount(_) => "these bytes are no amount's",
            Refusal::JoinUnwritable(_) => "the joint amount cannot be written",
            Refusal::BadLimits => "the depth is over 20, or the closing is not 1 to 9,999",
            Refusal::AlreadyStands => "the closing stands already",
            Refusal::EightStand => "eight closings stand already",
            Refusal::StoreUnsuited => "a store does not suit this closing",
            Refusal::BadIdentity => "the customer number or the salt is not 16 bytes",
            Refusal::LeavesTaken => "every leaf is taken",
            Refusal::NotStanding => "the closing does not stand, or the leaf was not entered",
            Refusal::BufferTooShort => "the buffer is too short",
            Refusal::SheetLength => "the sheet has another length",
            Refusal::OtherKind => "the kind of amount or of digest is another",
            Refusal::FileLength => "the file has another length",
            Refusal::OtherSheet => "the file's first seven bytes are not the sheet's",
            Refusal::LeafOutside => "the depth has no such leaf number",
            Refusal::RootDiffers => "the top of the path is not the root",
            Refusal::TwoTexts => "two texts with one digest are shown",
            Refusal::TextsShown => "two texts were shown before",
        }
    }
}

impl fmt::Display for Refusal {
    fn fmt<W: fmt::Write>(&self, f: &mut fmt::Formatter<W>) -> fmt::Result {
        let number = self.number();
        let words = self.words();
        write!(f, "refusal {number}: {words}")
    }
}
