//! Growing: from the lines of a ledger in a node store, every other node of its tree.
//!
//! Level by level from the leaves up, so that the nodes of one level can be hashed together. `specs/Growing` says what is
//! there on the way. Nothing here is refused: the room was seen when the ledger was opened, and every joint amount is under
//! the total. Where a store or a joining refuses all the same, the node is left out.
#![tactic(auto)]

ghost use Rattle.std.specs.Prelude.{◌≡◌, ℕ, ◌+◌, ◌-◌, ◌*◌, ◌^◌, ◌<◌, ◌≤◌, true, T, List, length, Some, None, MatchOption};
ghost use Rattle.node.specs.Texts.{Node as NodeSaid, node_bytes, inner_node};
ghost use Rattle.node.specs.Meant.{node_of};
ghost use Rattle.store.specs.Meaning.{Meaning, inside};
ghost use Rattle.refusal.specs.declared.cases.Refusal.{Refusal as RefusalSaid};
ghost use Rattle.store.specs.Calls.{put_refusal, Put};
ghost use Rattle.client.specs.Fetch.{fetched};
ghost use Rattle.closing.specs.Closings.{Closing as ClosingSaid};
ghost use Rattle.grow.specs.Growing.{Whole, IsClosing, Ripe, Grown, Risen};

use amount::Amount;
use client::{fetch, keep};
use digest::Digest;
use node::types::Node;
use node::{inner, node_text, padding, read_node};
use numbering::{Closing, Key, Leaf, Place};
use store::NodeStore;
use tree::leaf_count;

// Puts a node at a place, where the store does not refuse it; otherwise nothing changes.
pub fn put_node<A: Amount, N: NodeStore>(nodes: &mut N, key: Key, node: &Node<A>)
    ensures is { put_refusal (N.meaning nodes.old) key.closing.0 key.place.0 (32 + A.kind.width) ≡ None
        → Put (N.meaning nodes.old) (N.meaning nodes.new) key.closing.0 key.place.0 (node_bytes A.kind (node_of A.meaning node.now)) }
    ensures refused { (e : RefusalSaid) → put_refusal (N.meaning nodes.old) key.closing.0 key.place.0 (32 + A.kind.width) ≡ Some e
        → N.meaning nodes.new ≡ N.meaning nodes.old }
{
    keep(nodes, key, node_text(node).as_slice());
}

// The node at a place, where there is one. The width is the kind's, so the array has the greatest.
fn get_node<A: Amount, N: NodeStore>(nodes: &mut N, key: Key) -> Option<Node<A>>
    ensures same { N.meaning nodes.new ≡ N.meaning nodes.old }
    ensures found { (x : NodeSaid) → Whole A.kind x
        → fetched (N.meaning nodes.old) key.closing.0 key.place.0 (32 + A.kind.width) ≡ Some (node_bytes A.kind x)
        → MatchOption result ⊥ (λ n. node_of A.meaning n ≡ x) }
{
    let mut record = [0u8; 112];
    let part = &mut record[..32 + A::width()];
    if !fetch(nodes, key, part) {
        return None;
    }
    read_node(part).ok()
}

// Puts at a place the node over those of its two children. Digest, store and closing stay parameters here and below: a struct
// of them would borrow the store, and each clause would have to say what it points to now.
fn raise<A: Amount, D: Digest, N: NodeStore>(
    digest: &D,
    nodes: &mut N,
    closing: Closing,
    place: u32,
)
    requires { place < 2 ^ 20 }
    ensures { (x y : NodeSaid) → Whole A.kind x → Whole A.kind y
        → fetched (N.meaning nodes.old) closing.0 (2 * place) (32 + A.kind.width) ≡ Some (node_bytes A.kind x)
        → fetched (N.meaning nodes.old) closing.0 (2 * place + 1) (32 + A.kind.width) ≡ Some (node_bytes A.kind y)
        → T (A.kind.writable (A.kind.join x.amount y.amount))
        → put_refusal (N.meaning nodes.old) closing.0 place (32 + A.kind.width) ≡ None
        → Put (N.meaning nodes.old) (N.meaning nodes.new) closing.0 place (node_bytes A.kind (inner_node A.kind (D.hash digest.now) x y)) }
{
    let left = Key {
        closing,
        place: Place(2 * place),
    };
    let right = Key {
        closing,
        place: Place(2 * place + 1),
    };
    let Some(left) = get_node::<A, N>(nodes, left) else {
        return;
    };
    let Some(right) = get_node::<A, N>(nodes, right) else {
        return;
    };
    if let Ok(node) = inner(digest, &left, &right) {
        let here = Key {
            closing,
            place: Place(place),
        };
        put_node(nodes, here, &node);
    }
}

// The padding of the leaves that have no line.
fn pad<A: Amount, D: Digest, N: NodeStore>(
    digest: &D,
    nodes: &mut N,
    closing: Closing,
    depth: u32,
    lines: u32,
)
    requires { depth ≤ 20 }
    ensures { (m : Meaning) (c : ClosingSaid) → Ripe A.kind (D.hash digest.now) m c → IsClosing c closing.0 depth lines
        → Risen A.kind (D.hash digest.now) m (N.meaning nodes.old) c 0 lines
        → Risen A.kind (D.hash digest.now) m (N.meaning nodes.new) c 0 (2 ^ depth) }
{
    let leaves = leaf_count(depth);
    for i in lines..leaves {
        let node = padding::<A, D>(digest, closing, Leaf(i));
        let here = Key {
            closing,
            place: Place(leaves + i),
        };
        put_node(nodes, here, &node);
    }
}

// Every node of a height, from those below.
fn raise_level<A: Amount, D: Digest, N: NodeStore>(
    digest: &D,
    nodes: &mut N,
    closing: Closing,
    depth: u32,
    height: u32,
)
    requires deep { depth ≤ 20 }
    requires high { (1 ≤ height) × (height ≤ depth) }
    ensures { (m : Meaning) (c : ClosingSaid) → Ripe A.kind (D.hash digest.now) m c → c.number ≡ closing.0 → c.depth ≡ depth
        → Risen A.kind (D.hash digest.now) m (N.meaning nodes.old) c height 0
        → Risen A.kind (D.hash digest.now) m (N.meaning nodes.new) c height (2 ^ (depth - height)) }
{
    let first = leaf_count(depth - height);
    for n in 0..first {
        raise::<A, D, N>(digest, nodes, closing, first + n);
    }
}

// From the lines of a ledger that are in the store, every other node of its tree; no tree is deeper than 20.
pub fn grow<A: Amount, D: Digest, N: NodeStore>(
    digest: &D,
    nodes: &mut N,
    closing: Closing,
    depth: u32,
    lines: u32,
)
    ensures { (c : ClosingSaid) → Ripe A.kind (D.hash digest.now) (N.meaning nodes.old) c → IsClosing c closing.0 depth lines
        → Grown A.kind (D.hash digest.now) (N.meaning nodes.old) (N.meaning nodes.new) c }
{
    if depth > 20 {
        return;
    }
    pad::<A, D, N>(digest, nodes, closing, depth, lines);
    // not `1..=depth`: that loop ends in two ways, and the last step would be proved twice
    for height in 1..depth + 1 {
        raise_level::<A, D, N>(digest, nodes, closing, depth, height);
    }
}
