//! A closing that stands, as the roll has it.
use numbering::Closing;

#[derive(Clone, Copy, Debug, PartialEq, Eq, Default)]
pub struct Stand {
    pub closing: Closing,
    pub depth: u8,
    // how many lines were entered
    pub lines: u32,
}
