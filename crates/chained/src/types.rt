//! The chained store's value: its memory, its extent, its number of records and its room, with what holds of them
//! between calls. A store on memory that does not fit has no records.
ghost use Rattle.std.specs.Prelude.{◌≡◌, ℕ, ◌<◌, ◌≤◌, vec_len};
ghost use Rattle.chained_theory.specs.Layout.{chained_bytes, head_at, next_at};
ghost use Rattle.chained.specs.Sizes.{IsLinked};

use store::limits::Extent;

#[derive(Drop)]
pub struct Chained {
    pub(crate) memory: Vec<u8>,
    pub(crate) extent: Extent,
    pub(crate) count: u32,
    pub(crate) room: u32,
    ghost few: { (room ≤ count) × (count ≤ 4194304) },
    ghost alive: { (extent.limits.first ≤ extent.limits.last → 1 ≤ count) },
    ghost shut: { (extent.limits.last < extent.limits.first → room ≡ 0) },
    ghost fits: { (1 ≤ count → chained_bytes extent.limits.width count ≤ vec_len memory) },
    // no link leads out
    ghost heads: { (1 ≤ count → (j : ℕ) → j < 17 → head_at memory.items j ≤ count) },
    ghost nexts: { ((i : ℕ) → 1 ≤ i → i ≤ count → next_at memory.items extent.limits.width i ≤ count) },
    // the records lie in the chains, and each key stands once
    ghost linked: { (1 ≤ count → ∥ IsLinked memory.items extent.limits count room ∥₁) },
}
