//! Bytes: numbers in big-endian bytes, and tests on lists of bytes.
//!
//! The room of byte-level definitions and their lemmas. Everything that lays out bytes rests on `specs/BigEndian`;
//! a change there reaches every layout. It knows nothing of amounts, digests or trees.
#![tactic(auto)]

ghost use Rattle.std.specs.Prelude.{◌≡◌, ℕ, ◌<◌, List, length, take, MatchOption, IsTrue, nat_le, refl};
ghost use Rattle.octets.specs.BigEndian.{be, value};
ghost use Rattle.octets.specs.Tests.{same};

// A number that N bytes write, the highest first.
pub trait BigEndian<const N: usize>: Copy {
    ghost number: { Self → ℕ };

    ghost short: { IsTrue (nat_le N 8) };

    // The number's bytes.
    fn be_bytes(self) -> [u8; N]
        ensures { result ≡ be N (number self) };

    // The number that the bytes write.
    fn of_be_bytes(bytes: &[u8; N]) -> Self
        ensures { number result ≡ value bytes.now };
}

impl BigEndian<4> for u32 {
    ghost number = { λ x. x };

    ghost short = { refl };

    fn be_bytes(self) -> [u8; 4] {
        u32::to_be_bytes(self)
    }

    fn of_be_bytes(bytes: &[u8; 4]) -> u32 {
        u32::from_be_bytes(*bytes)
    }
}

impl BigEndian<8> for u64 {
    ghost number = { λ x. x };

    ghost short = { refl };

    fn be_bytes(self) -> [u8; 8] {
        u64::to_be_bytes(self)
    }

    fn of_be_bytes(bytes: &[u8; 8]) -> u64 {
        u64::from_be_bytes(*bytes)
    }
}

// The number that the first N bytes write, where there are N.
pub fn read_be<T: BigEndian<N>, const N: usize>(bytes: &[u8]) -> Option<T>
    ensures { MatchOption result (length bytes.now < N) (λ x. T.number x ≡ value (take N bytes.now)) }
{
    let (first, _) = bytes.split_first_chunk::<N>()?;
    Some(T::of_be_bytes(first))
}

// Whether two rows of bytes are the same. A function of its own, since tables of refusals say it by `same`.
pub fn same_bytes(a: &[u8], b: &[u8]) -> bool
    ensures { result ≡ same a.now b.now }
{
    a == b
}
