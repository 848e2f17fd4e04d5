//! Amounts that are rows of numbers: kind 1, single, one number of cents; kind 2, purse, cents in four fixed currencies.
//!
//! The bound is in the type: no number of a row is 2^63 or more. A new kind of rows is a name for its rows, with its definition
//! and laws from `amount`; only this crate knows that a meaning is the row itself.
#![tactic(auto)]

ghost use Rattle.std.specs.Prelude.{◌≡◌, ℕ, ◌+◌, ◌*◌, ◌≤◌, true, false, length, take, drop, MatchOption, nat_le};
ghost use Rattle.std.specs.List.{list_all, zip};
ghost use Rattle.std.proofs.Common.{refl, subst};
ghost use Rattle.octets.specs.BigEndian.{value};
ghost use Rattle.refusal.specs.Tables.{written};
ghost use Rattle.amount.specs.Kinds.{Kind, Laws};
ghost use Rattle.amount.specs.Rows.{single as single_kind, purse as purse_kind, rows, small, plus, numbers, bytes};
ghost use Rattle.amount.proofs.RowLaws.{single_laws, purse_laws, row_writable, row_parts};

use amount::{Amount, MOST};
use octets::{BigEndian, read_be};
use refusal::cases::Refusal;

// The amounts of kind KIND: rows of N numbers, each below 2^63.
#[derive(Clone, Copy, Debug, PartialEq, Eq)]
pub struct Row<const KIND: u8, const N: usize> {
    pub cents: [u64; N],
    ghost long: { length cents ≡ N },
    ghost bound: { list_all small cents ≡ true },
}

// The kind that `amount` defines as number KIND, rows of N numbers, and its laws.
pub trait RowKind<const KIND: u8, const N: usize> {
    ghost definition: { Kind };

    ghost is_rows: { definition ≡ rows KIND N };

    ghost laws: { Laws definition };
}

// Cents.
pub type Single = Row<1, 1>;

impl RowKind<1, 1> for Single {
    ghost definition = { single_kind };

    ghost is_rows = { refl };

    ghost laws = { single_laws };
}

// Cents in four fixed currencies.
pub type Purse = Row<2, 4>;

impl RowKind<2, 4> for Purse {
    ghost definition = { purse_kind };

    ghost is_rows = { refl };

    ghost laws = { purse_laws };
}

// Whether each number is below 2^63.
#[tactic(auto, using(crate::proofs::Rows::small_most))]
fn all_small(cents: &[u64]) -> bool
    ensures { result ≡ list_all small cents.now }
{
    cents.iter().all(|c| *c <= MOST)
}

// Whether each number is at most its partner.
fn all_at_most(a: &[u64], b: &[u64]) -> bool
    ensures { result ≡ list_all (λ p. nat_le p.0 p.1) (zip a.now b.now) }
{
    a.iter().zip(b).all(|(x, y)| *x <= *y)
}

// The sums, number by number. By index here and below: over `array::from_fn` the goals on the captured numbers did not close.
fn sums<const N: usize>(a: &[u64; N], b: &[u64; N]) -> [u64; N]
    requires { (list_all small a.now ≡ true) × (list_all small b.now ≡ true) }
    ensures { result ≡ plus a.now b.now }
{
    let mut sums = *a;
    for (i, more) in b.iter().enumerate() {
        sums[i] += *more;
    }
    sums
}

// Number i of those that these bytes write, eight to each.
fn number_in(bytes: &[u8], i: usize) -> u64
    requires { 8 * i + 8 ≤ length bytes.now }
    ensures { result ≡ value (take 8 (drop (8 * i) bytes.now)) }
{
    read_be(&bytes[8 * i..]).unwrap()
}

// The numbers that these bytes write.
fn numbers_in<const N: usize>(bytes: &[u8]) -> [u64; N]
    requires { length bytes.now ≡ 8 * N }
    ensures { result ≡ numbers N bytes.now }
{
    let mut numbers = [0; N];
    for i in 0..N {
        numbers[i] = number_in(bytes, i);
    }
    numbers
}

// Writes the numbers' bytes to the front of the buffer.
fn put_numbers(out: &mut [u8], numbers: &[u64])
    requires { 8 * length numbers.now ≤ length out.old }
    ensures { out.new ≡ written (bytes numbers.now) out.old }
{
    for (i, number) in numbers.iter().enumerate() {
        out[8 * i..8 * i + 8].copy_from_slice(&number.be_bytes());
    }
}

impl<const KIND: u8, const N: usize> Row<KIND, N> {
    // The row of these numbers, where each is below 2^63.
    fn of_cents(cents: [u64; N]) -> Option<Self>
        ensures { MatchOption result (list_all small cents.entry ≡ false) (λ a. a.cents ≡ cents.entry) }
    {
        if all_small(&cents) {
            Some(Row { cents })
        } else {
            None
        }
    }
}

impl<const KIND: u8, const N: usize> Amount for Row<KIND, N>
where
    Self: RowKind<KIND, N>,
{
    ghost kind = { rows KIND N };

    ghost meaning = { λ a. a.cents };

    ghost lawful = { subst Laws bound-1.is_rows bound-1.laws };

    ghost sound = { λ a. row_writable N a.cents a.long a.bound };

    ghost whole = { λ m w. (record { cents = m; long = (row_parts N m w).0; bound = (row_parts N m w).1 }, refl) };

    fn number() -> u8 {
        KIND
    }

    fn width() -> usize {
        N * 8
    }

    fn count() -> usize {
        N
    }

    #[tactic(auto, using(crate::proofs::Rows::zero_long, crate::proofs::Rows::zero_small))]
    fn zero() -> Self {
        Row { cents: [0; N] }
    }

    fn of_numbers(numbers: &[u64]) -> Option<Self> {
        Self::of_cents(<[u64; N]>::try_from(numbers).ok()?)
    }

    fn number_at(self, i: usize) -> u64 {
        self.cents.get(i).copied().unwrap_or(0)
    }

    fn join(self, other: Self) -> Result<Self, Refusal> {
        Self::of_cents(sums(&self.cents, &other.cents)).ok_or(Refusal::JoinUnwritable(0))
    }

    #[tactic(auto, using(crate::proofs::Rows::at_most_pairs))]
    fn under(self, other: Self) -> bool {
        all_at_most(&self.cents, &other.cents)
    }

    fn write(self, out: &mut [u8]) -> Result<usize, Refusal> {
        let width = Self::width();
        if out.len() < width {
            return Err(Refusal::BufferTooShort);
        }
        put_numbers(out, &self.cents);
        Ok(width)
    }

    fn read(bytes: &[u8]) -> Result<Self, Refusal> {
        if bytes.len() != Self::width() {
            return Err(Refusal::BadAmount(0));
        }
        Self::of_cents(numbers_in(bytes)).ok_or(Refusal::BadAmount(0))
    }
}
