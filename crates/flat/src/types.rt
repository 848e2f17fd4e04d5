//! The flat store's value: its memory, its extent and its room, with what holds of them between calls.
ghost use Rattle.std.specs.Prelude.{◌≡◌, ◌+◌, ◌≤◌, vec_len};
ghost use Rattle.store.specs.Counts.{held_all};
ghost use Rattle.flat.specs.Sizes.{bytes_of, room_of, meaning_of};

use store::limits::Extent;

#[derive(Drop)]
pub struct Flat {
    pub(crate) memory: Vec<u8>,
    pub(crate) extent: Extent,
    pub(crate) room: u64,
    ghost fits: { bytes_of extent.limits ≤ vec_len memory },
    // every key inside is written or counted in the room
    ghost counts: { room + held_all (meaning_of memory.items extent.limits room) ≡ room_of extent.limits },
}
