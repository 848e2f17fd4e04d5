//! Code over any node store, shown from the store's contract alone.
//!
//! What is written here knows nothing of flat or chained stores. Filling a closing is the pattern for a caller whose puts
//! cannot be refused: see the room once, and go on. Fetching, keeping and forgetting are for callers that know from
//! elsewhere that no refusal comes: where one does, nothing changes.
#![tactic(auto)]

ghost use Rattle.std.specs.Prelude.{◌≡◌, ℕ, ◌+◌, ◌^◌, ◌<◌, ◌≤◌, true, false, length, is_some, Some, None, nat_le};
ghost use Rattle.std.specs.Option.{unwrap_or};
ghost use Rattle.refusal.specs.Tables.{Answers};
ghost use Rattle.store.specs.Meaning.{inside, in_span};
ghost use Rattle.refusal.specs.declared.cases.Refusal.{Refusal as RefusalSaid};
ghost use Rattle.store.specs.Calls.{put_refusal, Put, Cleared, Refused, clear_refusal};
ghost use Rattle.client.specs.Fill.{fill_refusal, Filled};
ghost use Rattle.client.specs.Suits.{suits as suits_tree};
ghost use Rattle.client.specs.Fetch.{fetched};

use numbering::{Closing, Key, Place};
use refusal::cases::Refusal;
use store::NodeStore;

// Puts one record at each place from 1 to n of a closing in which nothing is written. The room is enough for n records, so
// that no put is refused.
fn put_each<S: NodeStore>(store: &mut S, closing: Closing, n: u32, bytes: &[u8])
    requires within { in_span (S.meaning store.old) closing.0 ≡ true }
    requires below { n < (S.meaning store.old).bound }
    requires wide { length bytes.now ≡ (S.meaning store.old).width }
    requires absent { (p : ℕ) → (S.meaning store.old).find closing.0 p ≡ None }
    requires room { n ≤ (S.meaning store.old).room }
    ensures { Filled (S.meaning store.old) (S.meaning store.new) closing.0 n bytes.now }
{
    for place in 1..=n {
        let key = Key {
            closing,
            place: Place(place),
        };
        store.put(key, bytes).unwrap();
    }
}

// Whether a closing can be filled up to place n: what the table of `fill_closing` says.
fn admit_fill<S: NodeStore>(
    store: &S,
    closing: Closing,
    n: u32,
    width: usize,
) -> Result<(), Refusal>
    ensures { Answers result (fill_refusal (S.meaning store.now) closing.0 n width) (λ _. Unit {0}) }
{
    let limits = store.limits();
    let held = store.held(closing)?;
    if limits.bound <= n {
        return Err(Refusal::KeyOutside);
    }
    if width != limits.width {
        return Err(Refusal::WrongWidth);
    }
    if store.room() < n.saturating_sub(held) as u64 {
        return Err(Refusal::Full);
    }
    Ok(())
}

// Clears a closing and puts one record at each place from 1 to n. It sees the room first, so that no put is refused.
pub fn fill_closing<S: NodeStore>(
    store: &mut S,
    closing: Closing,
    n: u32,
    bytes: &[u8],
) -> Result<(), Refusal>
    ensures answers { Answers result
        (fill_refusal (S.meaning store.old) closing.0 n (length bytes.now))
        (λ _. Filled (S.meaning store.old) (S.meaning store.new) closing.0 n bytes.now) }
    ensures refused { Refused result (S.meaning store.new ≡ S.meaning store.old) }
{
    admit_fill(store, closing, n, bytes.len())?;
    store.clear(closing).unwrap();
    put_each(store, closing, n, bytes);
    Ok(())
}

// Whether the places up to 2^(depth + 1) - 1 lie below a bound.
fn holds_places(bound: u32, depth: u32) -> bool
    requires { bound ≤ 2097152 }
    ensures { result ≡ nat_le (2 ^ (depth + 1)) bound }
{
    depth <= 20 && (2u32 << depth) <= bound
}

// Whether a store has records of a width, and keys for every place of a tree of a depth under a closing.
pub fn suits<S: NodeStore>(store: &S, width: usize, closing: Closing, depth: u32) -> bool
    ensures { result ≡ suits_tree (S.meaning store.now) width closing.0 depth }
{
    let limits = store.limits();
    limits.width == width && limits.spans(closing) && holds_places(limits.bound, depth)
}

// Fills the buffer with the record under a key; false, and the buffer stays, where there is none for it: a flag as in `get`.
pub fn fetch<S: NodeStore>(store: &mut S, key: Key, into: &mut [u8]) -> bool
    ensures same { S.meaning store.new ≡ S.meaning store.old }
    ensures found { result ≡ is_some (fetched (S.meaning store.old) key.closing.0 key.place.0 (length into.old)) }
    ensures filled { into.new ≡ unwrap_or (fetched (S.meaning store.old) key.closing.0 key.place.0 (length into.old)) into.old }
{
    store.get(key, into).unwrap_or(false)
}

// Sets the record under a key where the store does not refuse it; otherwise nothing changes.
pub fn keep<S: NodeStore>(store: &mut S, key: Key, bytes: &[u8])
    ensures is { put_refusal (S.meaning store.old) key.closing.0 key.place.0 (length bytes.now) ≡ None
        → Put (S.meaning store.old) (S.meaning store.new) key.closing.0 key.place.0 bytes.now }
    ensures refused { (e : RefusalSaid) → put_refusal (S.meaning store.old) key.closing.0 key.place.0 (length bytes.now) ≡ Some e
        → S.meaning store.new ≡ S.meaning store.old }
{
    let _ = store.put(key, bytes);
}

// Forgets a closing of the span; otherwise nothing changes.
pub fn forget<S: NodeStore>(store: &mut S, closing: Closing)
    ensures is { in_span (S.meaning store.old) closing.0 ≡ true → Cleared (S.meaning store.old) (S.meaning store.new) closing.0 }
    ensures refused { in_span (S.meaning store.old) closing.0 ≡ false → S.meaning store.new ≡ S.meaning store.old }
{
    let _ = store.clear(closing);
}
