//! Nodes: the texts that are hashed, the nodes that they make, and a node's bytes.
//!
//! `specs/Texts` has each text once. Everything above builds its nodes here and hashes nothing itself. A change of a
//! text is made in `specs/Texts` and in the function of the same name.
#![tactic(auto)]

ghost use Rattle.std.specs.Prelude.{◌≡◌, ℕ, ◌+◌, ◌*◌, ◌<◌, ◌≤◌, not, List, [], ◌∷◌, ◌++◌, length, take, drop, is_some, Some, nat_lt};
ghost use Rattle.refusal.specs.declared.cases.Refusal.TheVariants.{BadAmount, BufferTooShort};
ghost use Rattle.refusal.specs.Tables.{◌⇒◌, first, written, Answers};
ghost use Rattle.amount.specs.Kinds.{join_refusal};
ghost use Rattle.node.specs.Texts.{leaf_text, inner_text, leaf_node, padding_node, inner_node, node_bytes, read_node};
ghost use Rattle.node.specs.Meant.{line_of, node_of};

pub mod text;
pub mod types;

use amount::Amount;
use digest::Digest;
use numbering::{Closing, Leaf};
use octets::BigEndian;
use refusal::cases::Refusal;
use text::Text;
use types::{Line, Node};

// The digest of a text that is never too long.
fn digest_of<D: Digest>(digest: &D, text: &Text) -> [u8; 32]
    ensures { result ≡ (D.hash digest.now).of text.now }
{
    digest.digest(text.as_slice()).unwrap()
}

// The text of a line.
pub fn leaf_text<A: Amount>(closing: Closing, line: &Line<A>) -> Text
    ensures len { length result ≡ 37 + A.kind.width }
    ensures said { result ≡ leaf_text A.kind closing.0 (line_of A.meaning line.now) }
{
    let mut text = Text::of_byte(0);
    text.push(&closing.0.be_bytes());
    text.push(&line.customer);
    text.push(&line.salt);
    text.push_amount(line.balance);
    text
}

// The node of a line.
pub fn leaf<A: Amount, D: Digest>(digest: &D, closing: Closing, line: &Line<A>) -> Node<A>
    ensures { node_of A.meaning result ≡ leaf_node A.kind (D.hash digest.now) closing.0 (line_of A.meaning line.now) }
{
    Node {
        digest: digest_of(digest, &leaf_text(closing, line)),
        amount: line.balance,
    }
}

// The node of a leaf with no line.
pub fn padding<A: Amount, D: Digest>(digest: &D, closing: Closing, leaf: Leaf) -> Node<A>
    ensures { node_of A.meaning result ≡ padding_node A.kind (D.hash digest.now) closing.0 leaf.0 }
{
    let mut text = Text::of_byte(2);
    text.push(&closing.0.be_bytes());
    text.push(&leaf.0.be_bytes());
    Node {
        digest: digest_of(digest, &text),
        amount: A::zero(),
    }
}

fn push_node<A: Amount>(text: &mut Text, node: &Node<A>)
    requires { length text.old + (32 + A.kind.width) ≤ 225 }
    ensures { text.new ≡ text.old ++ node_bytes A.kind (node_of A.meaning node.now) }
{
    text.push(&node.digest);
    text.push_amount(node.amount);
}

// The text of a node over two others.
pub fn inner_text<A: Amount>(left: &Node<A>, right: &Node<A>) -> Text
    ensures len { length result ≡ 65 + 2 * A.kind.width }
    ensures said { result ≡ inner_text A.kind (node_of A.meaning left.now) (node_of A.meaning right.now) }
{
    let mut text = Text::of_byte(1);
    push_node(&mut text, left);
    push_node(&mut text, right);
    text
}

// The node over two others; refused exactly where their joint amount cannot be written.
pub fn inner<A: Amount, D: Digest>(
    digest: &D,
    left: &Node<A>,
    right: &Node<A>,
) -> Result<Node<A>, Refusal>
    ensures { Answers result
        (join_refusal A.kind (A.meaning left.now.amount) (A.meaning right.now.amount))
        (λ n. node_of A.meaning n ≡ inner_node A.kind (D.hash digest.now) (node_of A.meaning left.now) (node_of A.meaning right.now)) }
{
    let amount = left.amount.join(right.amount)?;
    Ok(Node {
        digest: digest_of(digest, &inner_text(left, right)),
        amount,
    })
}

// A node's bytes, as a text of their own.
pub fn node_text<A: Amount>(node: &Node<A>) -> Text
    ensures len { length result ≡ 32 + A.kind.width }
    ensures said { result ≡ node_bytes A.kind (node_of A.meaning node.now) }
{
    let mut text = Text::empty();
    push_node(&mut text, node);
    text
}

// Writes a node's bytes to the front of the buffer, and answers how many they are.
pub fn write_node<A: Amount>(node: &Node<A>, out: &mut [u8]) -> Result<usize, Refusal>
    ensures answers { Answers result
        (first ((nat_lt (length out.old) (32 + A.kind.width) ⇒ BufferTooShort) ∷ []))
        (λ n. (n ≡ 32 + A.kind.width) × (n ≡ length (node_bytes A.kind (node_of A.meaning node.now)))
        × (out.new ≡ written (node_bytes A.kind (node_of A.meaning node.now)) out.old)) }
    ensures refused { length out.old < 32 + A.kind.width → out.new ≡ out.old }
{
    let end = 32 + A::width();
    if out.len() < end {
        return Err(Refusal::BufferTooShort);
    }
    out[0..32].copy_from_slice(&node.digest);
    // a match, as the proof reads in its arm what was written
    match node.amount.write(&mut out[32..end]) {
        Ok(_) => Ok(end),
        Err(_) => unreachable(),
    }
}

// The node that these bytes say; refused exactly where they say none, at the amount.
pub fn read_node<A: Amount>(bytes: &[u8]) -> Result<Node<A>, Refusal>
    ensures { Answers result
        (first ((not (is_some (A.kind.read (drop 32 bytes.now))) ⇒ BadAmount 32) ∷ []))
        (λ n. read_node A.kind bytes.now ≡ Some (node_of A.meaning n)) }
{
    let Some((digest, rest)) = bytes.split_first_chunk::<32>() else {
        return Err(Refusal::BadAmount(32));
    };
    let amount = A::read(rest).map_err(|_| Refusal::BadAmount(32))?;
    Ok(Node {
        digest: *digest,
        amount,
    })
}
