//! A sheet, as code holds it.
use node::types::Node;
use numbering::Closing;

#[derive(Clone, Copy)]
pub struct Sheet<A> {
    pub closing: Closing,
    pub depth: u8,
    pub root: Node<A>,
}
