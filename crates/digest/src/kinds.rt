//! The digests, as values.

// 31 zero bytes, and the sum of the text's bytes: for rehearsals, where a person wants to follow the numbers.
#[derive(Clone, Copy)]
pub struct Rehearsal;

#[derive(Clone, Copy)]
pub struct Sha256;

// One of them, chosen at run time.
#[derive(Clone, Copy)]
pub enum AnyDigest {
    Rehearsal,
    Sha256,
}
