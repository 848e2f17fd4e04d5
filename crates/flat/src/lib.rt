//! The flat store: a slot for every key, so that put and get touch one slot.
//!
//! Its layout is that of the crate `flat_theory`. It lies in a memory that is moved in and handed back; on a memory that
//! `measure` refuses it has an empty span and no room. How slots are found or cleared may be changed here, as long as
//! the contracts of `NodeStore` and of `new` stay.
#![tactic(auto)]

ghost use Rattle.std.specs.Prelude.{◌≡◌, ℕ, ◌+◌, ◌-◌, ◌*◌, ◌<◌, ◌≤◌, true, length, is_some, if◌then◌else◌, Some, None, vec_len, ◌≢◌, slice_index, slice_set};
ghost use Rattle.refusal.specs.declared.cases.Refusal.TheVariants.{MemoryUnfit};
ghost use Rattle.refusal.specs.Tables.{Answers};
ghost use Rattle.memory.specs.Part.{patch};
ghost use Rattle.store.specs.Meaning.{in_span, inside};
ghost use Rattle.store.specs.Counts.{held as held_in};
ghost use Rattle.store.specs.Calls.{Empty};
ghost use Rattle.flat.specs.Sizes.{bytes_of, refusal_of, start_of};
ghost use Rattle.flat.specs.Meaning.{flat_meaning, slot_in, IsEmpty};
ghost use Rattle.flat.specs.Sounds.{flat_sound};

pub mod types;

use numbering::{Closing, Key, Place};
use refusal::cases::Refusal;
use store::NodeStore;
use store::limits::{Extent, Limits};
use types::Flat;

// The extent of a store with these limits, where it fits in so many bytes.
#[tactic(auto, using(flat_theory::proofs::Finds::flat_small))]
fn fitting(limits: Limits, memory: usize) -> Result<Extent, Refusal>
    ensures { Answers result (refusal_of limits memory) (λ extent. extent.limits ≡ limits) }
{
    let extent = Extent::new(limits)?;
    let slots = extent.closings() as usize * limits.bound as usize;
    if slots * (limits.width + 1) <= memory {
        Ok(extent)
    } else {
        Err(Refusal::MemoryUnfit)
    }
}

// Whether a store with these limits fits in so many bytes. Measuring, making and giving back are the chained store's too: what is
// the same in both is `Extent`, and the rest is the layout.
pub fn measure(limits: Limits, memory: usize) -> Result<(), Refusal>
    ensures { Answers result (refusal_of limits memory) (λ _. Unit {0}) }
{
    fitting(limits, memory)?;
    Ok(())
}

// Writes a slot: its mark, and the record behind it.
fn write_slot(memory: &mut [u8], at: usize, bytes: &[u8])
    requires { at + 1 + length bytes.now ≤ length memory.old }
    ensures { memory.new ≡ patch (slice_set memory.old at 1) (at + 1) bytes.now }
{
    memory[at] = 1;
    let end = at + 1 + bytes.len();
    memory[at + 1..end].copy_from_slice(bytes);
}

// Sets the marks of n slots to 0, from the one at `base` on. By index: what lies behind an adapter of `iter_mut` is not known after
// the loop, so the proof did not close.
fn clear_marks(memory: &mut [u8], base: usize, step: usize, n: usize)
    requires { (base + n * step ≤ length memory.old) × (1 ≤ step) }
    ensures marks { (k : ℕ) → k < n → slice_index memory.new (base + k * step) ≡ 0 }
    ensures rest { (j : ℕ) → ((k : ℕ) → k < n → j ≢ base + k * step) → slice_index memory.new j ≡ slice_index memory.old j }
{
    for i in 0..n {
        memory[base + i * step] = 0;
    }
}

impl Flat {
    // A store in which nothing is written; one with an empty span where measuring refuses.
    pub fn new(memory: Vec<u8>, limits: Limits) -> Flat
        ensures fit { refusal_of limits (vec_len memory) ≡ None → IsEmpty result limits }
        ensures unfit { refusal_of limits (vec_len memory) ≡ Some MemoryUnfit → Empty (flat_meaning result) 1 1 0 2 0 }
        ensures kept { vec_len result.memory ≡ vec_len memory }
    {
        match fitting(limits, memory.len()) {
            Ok(extent) => Flat::emptied(memory, extent),
            Err(_) => Flat::emptied(memory, Extent::empty()),
        }
    }

    // The store on a memory that fits, with every mark 0.
    fn emptied(mut memory: Vec<u8>, extent: Extent) -> Flat
        requires { bytes_of extent.limits ≤ vec_len memory }
        ensures is { IsEmpty result extent.limits }
        ensures kept { vec_len result.memory ≡ vec_len memory }
    {
        let limits = extent.limits;
        let closings = extent.closings();
        clear_marks(
            &mut memory,
            0,
            limits.width + 1,
            closings as usize * limits.bound as usize,
        );
        Flat {
            memory,
            extent,
            room: closings as u64 * (limits.bound - 1) as u64,
        }
    }

    // The memory that the store lay in.
    pub fn into_memory(self) -> Vec<u8>
        ensures { result ≡ self.memory }
    {
        self.memory
    }

    // Where the slot of a key starts.
    #[tactic(auto, using(crate::proofs::Rules::places), unfolding(flat_theory::specs::Layout::slot_of))]
    fn slot(&self, key: Key) -> usize
        requires { inside (flat_meaning self.now) key.closing.0 key.place.0 ≡ true }
        ensures is { result ≡ start_of self.now.extent.limits key.closing.0 key.place.0 }
        ensures fits { result + 1 + self.now.extent.limits.width ≤ vec_len self.now.memory }
    {
        let limits = self.extent.limits;
        let row = (key.closing.0 - limits.first) as usize;
        (row * limits.bound as usize + key.place.0 as usize) * (limits.width + 1)
    }

    // Whether the slot at `at` is written.
    fn is_written(&self, at: usize) -> bool
        requires { at < vec_len self.now.memory }
        ensures { result ≡ is_some (slot_in self.now at) }
    {
        let mark = self.memory[at];
        mark == 1
    }

    // The room once the slot at `at` is written.
    fn room_after(&self, at: usize) -> u64
        requires within { at < vec_len self.now.memory }
        requires some { slot_in self.now at ≡ None → 1 ≤ self.now.room }
        ensures { result + (if is_some (slot_in self.now at) then 0 else 1) ≡ self.now.room }
    {
        if self.is_written(at) {
            self.room
        } else {
            self.room - 1
        }
    }

    // How many places of a closing are written. In one loop: `filter` and `count` make two, of nearly three times the instructions.
    fn count(&self, closing: Closing) -> u32
        requires { in_span (flat_meaning self.now) closing.0 ≡ true }
        ensures { result ≡ held_in (flat_meaning self.now) closing.0 }
    {
        let mut written = 0;
        for k in 0..self.extent.limits.bound - 1 {
            let at = self.slot(Key {
                closing,
                place: Place(k + 1),
            });
            written += u32::from(self.is_written(at));
        }
        written
    }
}

impl NodeStore for Flat {
    ghost meaning = { flat_meaning };

    ghost sound = { flat_sound };

    fn put(&mut self, key: Key, bytes: &[u8]) -> Result<(), Refusal> {
        self.extent.limits.admit(key, bytes.len())?;
        let at = self.slot(key);
        let room = self.room_after(at);
        write_slot(&mut self.memory, at, bytes);
        self.room = room;
        Ok(())
    }

    fn get(&mut self, key: Key, into: &mut [u8]) -> Result<bool, Refusal> {
        self.extent.limits.admit(key, into.len())?;
        let at = self.slot(key);
        let found = self.is_written(at);
        if found {
            let end = at + 1 + into.len();
            into.copy_from_slice(&self.memory[at + 1..end]);
        }
        Ok(found)
    }

    fn held(&self, closing: Closing) -> Result<u32, Refusal> {
        self.extent.limits.admit_closing(closing)?;
        Ok(self.count(closing))
    }

    fn clear(&mut self, closing: Closing) -> Result<(), Refusal> {
        self.extent.limits.admit_closing(closing)?;
        let n = self.count(closing);
        let base = self.slot(Key {
            closing,
            place: Place(1),
        });
        clear_marks(
            &mut self.memory,
            base,
            self.extent.limits.width + 1,
            self.extent.limits.bound as usize - 1,
        );
        self.room += n as u64;
        Ok(())
    }

    fn room(&self) -> u64 {
        self.room
    }

    fn limits(&self) -> Limits {
        self.extent.limits
    }
}
