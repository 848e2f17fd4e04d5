//! The summation tree of a ledger.
//!
//! `specs/Trees` is the tree that every root, file and audit is about: what stands at each place, from the lines alone.
//! The function `tree_node` computes it so, for whoever wants to compare.
#![tactic(auto)]

ghost use Rattle.std.specs.Prelude.{◌≡◌, ℕ, ◌+◌, ◌-◌, ◌*◌, ◌^◌, ◌<◌, ◌≤◌, not, ◌||◌, [], ◌∷◌, nat_le, nat_lt};
ghost use Rattle.refusal.specs.declared.cases.Refusal.TheVariants.{JoinUnwritable};
ghost use Rattle.refusal.specs.Tables.{◌⇒◌, first, Answers};
ghost use Rattle.node.specs.Meant.{node_of, lines_of};
ghost use Rattle.tree.specs.Trees.{balances_total, node_at, node_refusal, bad_limits};

use amount::Amount;
use digest::Digest;
use node::types::{Line, Node};
use node::{inner, leaf, padding};
use numbering::{Closing, Leaf};
use refusal::cases::Refusal;

// A ledger, and the digest that its tree is made with.
#[derive(Drop)]
struct Leaves<'a, A, D> {
    digest: &'a D,
    closing: Closing,
    lines: &'a [Line<A>],
}

impl<'a, A: Amount, D: Digest> Leaves<'a, A, D> {
    // Leaf n of the tree.
    fn leaf(&self, n: u32) -> Node<A>
        ensures { node_of A.meaning result ≡ node_at A.kind (D.hash self.now.digest.now) self.now.closing.0 (lines_of A.meaning self.now.lines.now) 0 n }
    {
        match self.lines.get(n as usize) {
            Some(line) => leaf(self.digest, self.closing, line),
            None => padding(self.digest, self.closing, Leaf(n)),
        }
    }

    // Node n of a height; refused exactly where its amount cannot be written.
    fn node(&self, height: u32, n: u32) -> Result<Node<A>, Refusal>
        requires { (n + 1) * 2 ^ height ≤ 2 ^ 20 }
        ensures { Answers result
            (first ((not (A.kind.writable
            (node_at A.kind (D.hash self.now.digest.now) self.now.closing.0 (lines_of A.meaning self.now.lines.now) height n).amount)
            ⇒ JoinUnwritable 0) ∷ []))
            (λ x. node_of A.meaning x ≡ node_at A.kind (D.hash self.now.digest.now) self.now.closing.0 (lines_of A.meaning self.now.lines.now) height n) }
    {
        if height == 0 {
            return Ok(self.leaf(n));
        }
        let left = self.node(height - 1, 2 * n)?;
        let right = self.node(height - 1, 2 * n + 1)?;
        inner(self.digest, &left, &right)
    }
}

// How many leaves a tree of a depth has: none past 20, since no tree is deeper.
pub fn leaf_count(depth: u32) -> u32
    ensures leaves { depth ≤ 20 → result ≡ 2 ^ depth }
    ensures none { 20 < depth → result ≡ 0 }
{
    if depth <= 20 { 1u32 << depth } else { 0 }
}

// Whether a closing is not 1 to 9,999, or a depth over 20.
pub fn bad_limits(closing: Closing, depth: u32) -> bool
    ensures { result ≡ bad_limits closing.0 depth }
{
    depth > 20 || !(1..=9999).contains(&closing.0)
}

// Whether a tree has no node n of a height.
fn no_node(depth: u32, height: u32, n: u32) -> bool
    requires { depth ≤ 20 }
    ensures { result ≡ (nat_lt depth height || nat_le (2 ^ (depth - height)) n) }
{
    height > depth || n >= leaf_count(depth - height)
}

// Node n of a height in the tree of a ledger, from its lines alone; the root is node 0 of the height that is the depth,
// and its amount is all balances joined.
pub fn tree_node<A: Amount, D: Digest>(
    digest: &D,
    closing: Closing,
    depth: u32,
    lines: &[Line<A>],
    height: u32,
    n: u32,
) -> Result<Node<A>, Refusal>
    ensures { Answers result
        (node_refusal A.kind (D.hash digest.now) closing.0 (lines_of A.meaning lines.now) depth height n)
        (λ x. (node_of A.meaning x ≡ node_at A.kind (D.hash digest.now) closing.0 (lines_of A.meaning lines.now) height n)
        × (height ≡ depth → A.meaning x.amount ≡ balances_total A.kind (lines_of A.meaning lines.now))) }
{
    if bad_limits(closing, depth) {
        return Err(Refusal::BadLimits);
    }
    if lines.len() > leaf_count(depth) as usize {
        return Err(Refusal::LeavesTaken);
    }
    if no_node(depth, height, n) {
        return Err(Refusal::LeafOutside);
    }
    let leaves = Leaves {
        digest,
        closing,
        lines,
    };
    leaves.node(height, n)
}
