//! Numbers and parts of records in a store's bytes.
ghost use Rattle.std.specs.Prelude.{◌≡◌, ◌+◌, ◌≤◌, length};
ghost use Rattle.memory.specs.Four.{be4, put4};
ghost use Rattle.memory.specs.Part.{patch};
ghost use Rattle.chained_theory.specs.Layout.{start_of};

use std::array::from_fn;

// The number of four bytes at `at`.
pub(crate) fn read4(memory: &[u8], at: usize) -> u32
    requires { at + 4 ≤ length memory.now }
    ensures { result ≡ be4 memory.now at }
{
    u32::from_be_bytes(from_fn(|i| memory[at + i]))
}

pub(crate) fn write4(memory: &mut [u8], at: usize, n: u32)
    requires { at + 4 ≤ length memory.old }
    ensures { memory.new ≡ put4 memory.old at n }
{
    memory[at..at + 4].copy_from_slice(&n.to_be_bytes());
}

// Writes bytes over those from `at` on.
pub(crate) fn write_part(memory: &mut [u8], at: usize, bytes: &[u8])
    requires { at + length bytes.now ≤ length memory.old }
    ensures { memory.new ≡ patch memory.old at bytes.now }
{
    memory[at..at + bytes.len()].copy_from_slice(bytes);
}

// Where record `number` starts.
#[tactic(auto, unfolding(chained_theory::specs::Layout::start_of))]
pub(crate) fn start(width: usize, number: u32) -> usize
    requires narrow { width ≤ 128 }
    requires few { (1 ≤ number) × (number ≤ 4194304) }
    ensures { result ≡ start_of width number }
{
    68 + (number as usize - 1) * (12 + width)
}
