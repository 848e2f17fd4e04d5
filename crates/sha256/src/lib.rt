//! SHA-256, proved equal to the definition of FIPS 180-4 in `specs/Sha256`.
//!
//! One function for the world, `sha256`; the others are its parts, each tied to the part of the definition of the same
//! name. The code may be made faster as long as the contracts stand; the definition is not to be touched.
#![tactic(auto)]

ghost use Rattle.std.specs.Prelude.{◌≡◌, ℕ, ◌+◌, ◌-◌, ◌*◌, ◌/◌, ◌%◌, ◌^◌, ◌<◌, ◌≤◌, List, ◌++◌, length, take, fold, replicate, slice_index, bit_xor};
ghost use Rattle.std.specs.Int.{rotate_right, w32};
ghost use Rattle.std.specs.List.{zip};
ghost use Rattle.constants.specs.Tables.{round_constants};
ghost use Rattle.sha256.specs.Words.{choose, majority, shr};
ghost use Rattle.sha256.specs.Sha256 as spec;
ghost use Rattle.sha256.specs.Steps.{round_with};

use constants::{H0, K};
use octets::BigEndian;
use std::array::from_fn;

#[tactic(auto, unfolding(crate::specs::Words::choose))]
fn ch(x: u32, y: u32, z: u32) -> u32
    ensures { result ≡ choose x y z }
{
    (x & y) ^ (!x & z)
}

#[tactic(auto, unfolding(crate::specs::Words::majority))]
fn maj(x: u32, y: u32, z: u32) -> u32
    ensures { result ≡ majority x y z }
{
    (x & y) ^ (x & z) ^ (y & z)
}

// Σ0 and Σ1: three rotations.
fn big_sigma<const A: u32, const B: u32, const C: u32>(x: u32) -> u32
    ensures { result ≡ bit_xor (bit_xor (rotate_right w32 x A) (rotate_right w32 x B)) (rotate_right w32 x C) }
{
    x.rotate_right(A) ^ x.rotate_right(B) ^ x.rotate_right(C)
}

// σ0 and σ1: two rotations and a shift.
fn small_sigma<const A: u32, const B: u32, const C: u32>(x: u32) -> u32
    requires { C < 32 }
    ensures { result ≡ bit_xor (bit_xor (rotate_right w32 x A) (rotate_right w32 x B)) (shr C x) }
{
    x.rotate_right(A) ^ x.rotate_right(B) ^ (x >> C)
}

// Word t of the schedule, from those before it.
fn next_word(w: &mut [u32; 64], t: usize)
    requires { (16 ≤ t) × (t < 64) }
    ensures { (s : List ℕ) → take t w.old ≡ spec.scheduled (t - 16) s → take (t + 1) w.new ≡ spec.scheduled (t + 1 - 16) s }
{
    let x = small_sigma::<17, 19, 10>(w[t - 2]).wrapping_add(w[t - 7]);
    let y = small_sigma::<7, 18, 3>(w[t - 15]).wrapping_add(w[t - 16]);
    w[t] = x.wrapping_add(y);
}

// The schedule of a block.
fn schedule(block: &[u8; 64]) -> [u32; 64]
    ensures { result ≡ spec.schedule block.now }
{
    let mut w = [0u32; 64];
    let (words, _) = block.as_chunks::<4>();
    for (t, word) in words.iter().enumerate() {
        w[t] = u32::of_be_bytes(word);
    }
    // Each word is made of four that stand before it in the same array.
    for t in 16..64 {
        next_word(&mut w, t);
    }
    w
}

// One round, with its constant and word.
fn round(s: [u32; 8], turn: (&u32, &u32)) -> [u32; 8]
    ensures { result ≡ spec.round s turn.entry.0.now turn.entry.1.now }
{
    let (k, w) = turn;
    let [a, b, c, d, e, f, g, h] = s;
    let t1 = h
        .wrapping_add(big_sigma::<6, 11, 25>(e))
        .wrapping_add(ch(e, f, g))
        .wrapping_add(*k)
        .wrapping_add(*w);
    let t2 = big_sigma::<2, 13, 22>(a).wrapping_add(maj(a, b, c));
    [t1.wrapping_add(t2), a, b, c, d.wrapping_add(t1), e, f, g]
}

// Eight rounds, with their constants and words: a fold over eight pairs is unrolled, and one over all 64 takes a fifth longer.
fn eight_rounds(s: [u32; 8], turns: (&[u32; 8], &[u32; 8])) -> [u32; 8]
    ensures { result ≡ fold round_with s (zip turns.entry.0.now turns.entry.1.now) }
{
    let (k, w) = turns;
    k.iter().zip(w).fold(s, round)
}

// All 64 rounds, eight a turn.
fn rounds(h: [u32; 8], w: &[u32; 64]) -> [u32; 8]
    ensures { result ≡ spec.rounds 64 h w.now }
{
    let (constants, _) = K.as_chunks::<8>();
    let (words, _) = w.as_chunks::<8>();
    constants.iter().zip(words).fold(h, eight_rounds)
}

// The sums word by word.
fn added(h: [u32; 8], s: [u32; 8]) -> [u32; 8]
    ensures { result ≡ spec.added h s }
{
    from_fn(|i| h[i].wrapping_add(s[i]))
}

// The chaining words after a block.
#[tactic(auto, unfolding(crate::specs::Sha256::compress))]
fn compress(h: [u32; 8], block: &[u8; 64]) -> [u32; 8]
    ensures { result ≡ spec.compress h block.now }
{
    added(h, rounds(h, &schedule(block)))
}

// The chaining words after these blocks.
fn chaining(h: [u32; 8], blocks: &[[u8; 64]]) -> [u32; 8]
    ensures { result ≡ fold spec.compress h blocks.now }
{
    blocks.iter().fold(h, compress)
}

// The bytes of the chaining words.
fn bytes_of(h: [u32; 8]) -> [u8; 32]
    ensures { result ≡ spec.bytes h }
{
    from_fn(|i| h[i / 4].be_bytes()[i % 4])
}

// Writes what is left of a text of `size` bytes, and its ending, over zero bytes.
fn put_last(out: &mut [u8], rest: &[u8], size: usize)
    requires zeros { out.old ≡ replicate (length out.old) 0 }
    requires room { length rest.now + 9 ≤ length out.old }
    ensures { out.new ≡ rest.now ++ spec.ending (length out.old - 9 - length rest.now) size }
{
    let (said, ending) = out.split_at_mut(rest.len());
    said.copy_from_slice(rest);
    ending[0] = 0x80;
    let bits = (size as u64).wrapping_mul(8);
    let at = ending.len() - 8;
    ending[at..].copy_from_slice(&bits.be_bytes());
}

// The last block or two: what is left of a text of `size` bytes, and its ending.
fn last<const END: usize>(rest: &[u8], size: usize) -> [u8; END]
    requires { length rest.now + 9 ≤ END }
    ensures { result ≡ rest.now ++ spec.ending (END - 9 - length rest.now) size }
{
    let mut out = [0u8; END];
    put_last(&mut out, rest, size);
    out
}

// The SHA-256 of a text of any length.
pub fn sha256(text: &[u8]) -> [u8; 32]
    ensures { result ≡ spec.sha256 text.now }
{
    let (blocks, rest) = text.as_chunks::<64>();
    let h = chaining(H0, blocks);
    bytes_of(if rest.len() < 56 {
        chaining(h, last::<64>(rest, text.len()).as_chunks().0)
    } else {
        chaining(h, last::<128>(rest, text.len()).as_chunks().0)
    })
}
