//! Amounts: what a kind of amount is, and its laws.
//!
//! `specs/Kinds` is what the rest of the library knows of amounts: a record of what a kind has, and its laws.
//! A new kind is a crate of its own that implements `Amount` and shows the laws, and a new kind of rows a definition here and a
//! name in `row`; nothing above may use more than the laws say. `specs/Rows` has the kinds whose amounts are rows of numbers,
//! with their laws shown once for every such kind.
#![tactic(auto)]

ghost use Rattle.std.specs.Prelude.{◌≡◌, ℕ, ◌<◌, ◌≤◌, false, T, List, length, Some, MatchOption, slice_index};
ghost use Rattle.refusal.specs.Tables.{Answers, written};
ghost use Rattle.amount.specs.Kinds.{Kind, Laws, join_refusal, read_refusal, write_refusal};

use refusal::cases::Refusal;

// The largest number of an amount that is a row of numbers: 2^63 - 1.
pub const MOST: u64 = 0x7fff_ffff_ffff_ffff;

pub trait Amount: Copy {
    ghost kind: { Kind };

    ghost meaning: { Self → List ℕ };

    // The kind's number in sheets and files.
    fn number() -> u8
        ensures { result ≡ kind.number };

    // How many bytes an amount is written in.
    fn width() -> usize
        ensures { result ≡ kind.width };

    // How many numbers a meaning has.
    fn count() -> usize
        ensures { result ≡ kind.count };

    fn zero() -> Self
        ensures { meaning result ≡ kind.zero };

    // The amount that means these numbers, where there is one.
    fn of_numbers(numbers: &[u64]) -> Option<Self>
        ensures { MatchOption result (kind.writable numbers.now ≡ false) (λ a. meaning a ≡ numbers.now) };

    // Number i of the meaning, or 0 where it has none.
    fn number_at(self, i: usize) -> u64
        ensures { result ≡ slice_index (meaning self) i };

    // Refused exactly where the joint meaning is not writable.
    fn join(self, other: Self) -> Result<Self, Refusal>
        ensures { Answers result (join_refusal kind (meaning self) (meaning other)) (λ a. meaning a ≡ kind.join (meaning self) (meaning other)) };

    // Whether each number is at most its partner, or what else the kind's order is.
    fn under(self, other: Self) -> bool
        ensures { result ≡ kind.under (meaning self) (meaning other) };

    // Writes the amount's bytes to the front of the buffer, and answers how many they are.
    fn write(self, out: &mut [u8]) -> Result<usize, Refusal>
        ensures answers { Answers result (write_refusal kind out.old)
            (λ n. (n ≡ kind.width) × (out.new ≡ written (kind.bytes (meaning self)) out.old)) }
        ensures refused { length out.old < kind.width → out.new ≡ out.old };

    // The amount whose bytes these are; refused exactly where there is none.
    fn read(bytes: &[u8]) -> Result<Self, Refusal>
        ensures { Answers result (read_refusal kind bytes.now) (λ a. kind.read bytes.now ≡ Some (meaning a)) };

    ghost lawful: { Laws kind };

    // the writable meanings are exactly those of amounts
    ghost sound: { (a : Self) → T (kind.writable (meaning a)) };

    ghost whole: { (m : List ℕ) → T (kind.writable m) → (a : Self) × (meaning a ≡ m) };
}
