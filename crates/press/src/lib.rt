//! The press: the sheet of a closing that stands, and the file of each of its lines, out of the two stores.
//!
//! The stores hold nodes and leaf texts in the bytes that sheets and files want, so that they are copied and not read. Every
//! record is fetched under the closing's own number. What is written fills its own length and leaves the rest of the buffer.
#![tactic(auto)]

ghost use Rattle.std.specs.Prelude.{◌≡◌, ℕ, ◌+◌, ◌-◌, ◌*◌, ◌/◌, ◌^◌, ◌<◌, ◌≤◌, List, [], ◌∷◌, ◌++◌, length, drop, Some, nat_lt};
ghost use Rattle.std.specs.List.{slice_get};
ghost use Rattle.refusal.specs.declared.cases.Refusal.TheVariants.{BufferTooShort};
ghost use Rattle.refusal.specs.Tables.{◌⇒◌, first, written, Answers};
ghost use Rattle.digest.specs.Hashes.{Hash, HashLaws};
ghost use Rattle.node.specs.Texts.{Line as LineSaid};
ghost use Rattle.tree.specs.Trees.{place};
ghost use Rattle.file.specs.Layout.{steps_bytes, file_length};
ghost use Rattle.file.specs.Ledgers.{beside, steps_beside};
ghost use Rattle.store.specs.Calls.{Refused};
ghost use Rattle.client.specs.Fetch.{fetched};
ghost use Rattle.closing.specs.Closings.{Closing as ClosingSaid, sheet_said, file_said};
ghost use Rattle.press.specs.Standing.{TreeStands, TextsStand};

use amount::Amount;
use client::fetch;
use digest::Digest;
use numbering::{Closing, Key, Leaf, Place};
use octets::BigEndian;
use refusal::cases::Refusal;
use sheet::head;
use store::NodeStore;
use tree::leaf_count;

// Puts a part behind what is written already. The buffer and a place in it stay two parameters here and below, since parts of the
// buffer are lent to a store in between.
fn put_part(out: &mut [u8], at: usize, part: &[u8])
    requires { at + length part.now ≤ length out.old }
    ensures long { length out.new ≡ length out.old }
    ensures is { (said o : List ℕ) → length said ≡ at → out.old ≡ written said o → out.new ≡ written (said ++ part.now) o }
{
    out[at..at + part.len()].copy_from_slice(part);
}

// Puts a record behind what is written already.
fn fetch_part<S: NodeStore>(store: &mut S, key: Key, out: &mut [u8], at: usize, width: usize)
    requires { at + width ≤ length out.old }
    ensures same { S.meaning store.new ≡ S.meaning store.old }
    ensures long { length out.new ≡ length out.old }
    ensures is { (said o b : List ℕ) → length said ≡ at → out.old ≡ written said o
        → fetched (S.meaning store.old) key.closing.0 key.place.0 width ≡ Some b → length b ≡ width → out.new ≡ written (said ++ b) o }
{
    let _ = fetch(store, key, &mut out[at..at + width]);
}

// The place beside the path of a leaf at height j: bit j of the leaf number tells the side.
fn step_place(depth: u32, leaf: u32, j: u32) -> u32
    requires { (depth ≤ 20) × ((leaf < 2 ^ depth) × (j < depth)) }
    ensures { result ≡ place depth j (beside (leaf / 2 ^ j)) }
{
    let own = leaf >> j;
    let other = if own & 1 == 0 { own + 1 } else { own - 1 };
    leaf_count(depth - j) + other
}

// Puts the steps of a leaf's file behind what is written already, from the leaf upwards.
fn put_steps<A: Amount, N: NodeStore>(
    nodes: &mut N,
    closing: Closing,
    depth: u32,
    leaf: u32,
    out: &mut [u8],
    at: usize,
)
    requires deep { depth ≤ 20 }
    requires low { leaf < 2 ^ depth }
    requires room { at + depth * (32 + A.kind.width) ≤ length out.old }
    ensures same { N.meaning nodes.new ≡ N.meaning nodes.old }
    ensures is { (h : Hash) (c : ClosingSaid) (said o : List ℕ) → HashLaws h → TreeStands A.kind h (N.meaning nodes.old) c → c.number ≡ closing.0 → c.depth ≡ depth
        → length said ≡ at → out.old ≡ written said o
        → out.new ≡ written (said ++ steps_bytes A.kind (steps_beside A.kind h c.number c.lines leaf depth 0)) o }
{
    let width = 32 + A::width();
    for j in 0..depth {
        let key = Key {
            closing,
            place: Place(step_place(depth, leaf, j)),
        };
        fetch_part(nodes, key, out, at + j as usize * width, width);
    }
}

// Writes the sheet of a closing that stands, and answers its length.
pub fn write_sheet<A: Amount, D: Digest, N: NodeStore>(
    digest: &D,
    nodes: &mut N,
    closing: Closing,
    depth: u8,
    out: &mut [u8],
) -> Result<usize, Refusal>
    ensures same { N.meaning nodes.new ≡ N.meaning nodes.old }
    ensures answers { (c : ClosingSaid) → TreeStands A.kind (D.hash digest.now) (N.meaning nodes.old) c → c.number ≡ closing.0 → c.depth ≡ depth
        → Answers result (first ((nat_lt (length out.old) (39 + A.kind.width) ⇒ BufferTooShort) ∷ []))
        (λ n. (n ≡ length (sheet_said A.kind (D.hash digest.now) c)) × (out.new ≡ written (sheet_said A.kind (D.hash digest.now) c) out.old)) }
    ensures refused { Refused result (out.new ≡ out.old) }
{
    let width = 32 + A::width();
    if out.len() < 7 + width {
        return Err(Refusal::BufferTooShort);
    }
    put_part(out, 0, &head::<A, D>(digest, closing, depth));
    let root = Key {
        closing,
        place: Place(1),
    };
    fetch_part(nodes, root, out, 7, width);
    Ok(7 + width)
}

// Puts the customer number, the salt and the balance of a leaf behind what is written already: its text without the first
// five bytes. The width is the kind's, so the array has the greatest.
fn put_line<A: Amount, L: NodeStore>(leaves: &mut L, key: Key, out: &mut [u8], at: usize)
    requires { at + (32 + A.kind.width) ≤ length out.old }
    ensures same { L.meaning leaves.new ≡ L.meaning leaves.old }
    ensures long { length out.new ≡ length out.old }
    ensures is { (said o b : List ℕ) → length said ≡ at → out.old ≡ written said o
        → fetched (L.meaning leaves.old) key.closing.0 key.place.0 (37 + A.kind.width) ≡ Some b → length b ≡ 37 + A.kind.width
        → out.new ≡ written (said ++ drop 5 b) o }
{
    let mut record = [0u8; 117];
    let text = &mut record[..37 + A::width()];
    let _ = fetch(leaves, key, text);
    put_part(out, at, &text[5..]);
}

// Writes the file of a line of a closing that stands, and answers its length. A leaf that no tree of the depth has is
// refused as one that was not entered.
pub fn write_file<A: Amount, D: Digest, N: NodeStore, L: NodeStore>(
    digest: &D,
    nodes: &mut N,
    leaves: &mut L,
    closing: Closing,
    depth: u8,
    leaf: Leaf,
    out: &mut [u8],
) -> Result<usize, Refusal>
    ensures same { (N.meaning nodes.new ≡ N.meaning nodes.old) × (L.meaning leaves.new ≡ L.meaning leaves.old) }
    ensures answers { (c : ClosingSaid) (l : LineSaid) → TreeStands A.kind (D.hash digest.now) (N.meaning nodes.old) c
        → TextsStand A.kind (D.hash digest.now) (L.meaning leaves.old) c → c.number ≡ closing.0 → c.depth ≡ depth → slice_get c.lines leaf.0 ≡ Some l
        → Answers result (first ((nat_lt (length out.old) (file_length A.kind.width depth) ⇒ BufferTooShort) ∷ []))
        (λ n. (n ≡ length (file_said A.kind (D.hash digest.now) c leaf.0 l)) × (out.new ≡ written (file_said A.kind (D.hash digest.now) c leaf.0 l) out.old)) }
    ensures refused { Refused result (out.new ≡ out.old) }
{
    let deep = depth as u32;
    let first = leaf_count(deep);
    if leaf.0 >= first {
        return Err(Refusal::NotStanding);
    }
    let width = A::width();
    let end = 43 + width + depth as usize * (32 + width);
    if out.len() < end {
        return Err(Refusal::BufferTooShort);
    }
    put_part(out, 0, &head::<A, D>(digest, closing, depth));
    put_part(out, 7, &leaf.0.be_bytes());
    let own = Key {
        closing,
        place: Place(first + leaf.0),
    };
    put_line::<A, L>(leaves, own, out, 11);
    put_steps::<A, N>(nodes, closing, deep, leaf.0, out, 43 + width);
    Ok(end)
}
