//! What the tree is made of.

// A line of a ledger.
#[derive(Clone, Copy)]
pub struct Line<A> {
    pub customer: [u8; 16],
    pub salt: [u8; 16],
    pub balance: A,
}

// A node: the digest of its text, and the amount below it.
#[derive(Clone, Copy)]
pub struct Node<A> {
    pub digest: [u8; 32],
    pub amount: A,
}
