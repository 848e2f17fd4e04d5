//! What the climb has in hand.
use node::types::Node;

// The line's own fields, the node of the path, and its height.
#[derive(Drop)]
pub(crate) struct Walker<A> {
    pub customer: [u8; 16],
    pub salt: [u8; 16],
    pub own: Node<A>,
    pub height: u32,
}
