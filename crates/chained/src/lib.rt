//! The chained store: records in sixteen buckets and a free chain, so that memory goes by the number of records.
//!
//! Its layout is that of the crate `chained_theory`. It lies in a memory that is moved in and handed back; on a memory
//! that `measure` refuses it has an empty span and no room. The order of the records in a chain, and which record a key
//! gets, may be changed here, as long as the contracts of `NodeStore` and of `new` stay.
#![tactic(auto)]

ghost use Rattle.std.specs.Prelude.{◌≡◌, ℕ, ◌+◌, ◌<◌, ◌≤◌, true, length, Some, None, vec_len, ◌≢◌, slice_index};
ghost use Rattle.refusal.specs.declared.cases.Refusal.TheVariants.{MemoryUnfit};
ghost use Rattle.refusal.specs.Tables.{Answers};
ghost use Rattle.store.specs.Meaning.{in_span, inside};
ghost use Rattle.store.specs.Counts.{held as held_in};
ghost use Rattle.store.specs.Calls.{Put, Cleared, Empty};
ghost use Rattle.chained_theory.specs.Layout.{start_of, next_at, head_at, count_of, filled, push_on, without, bucket_of, home_of, front_of, chained_bytes};
ghost use Rattle.chained_theory.specs.Links.{Laid, Forgot};
ghost use Rattle.chained.specs.Sizes.{refusal_of};
ghost use Rattle.chained.specs.Meaning.{chained_meaning, IsEmpty, sought};
ghost use Rattle.chained.specs.Records.{IsRecord};
ghost use Rattle.chained.specs.Forgets.{every, which};
ghost use Rattle.chained.specs.Sounds.{chained_sound};

pub(crate) mod bytes;
pub(crate) mod records;
pub mod types;

use bytes::{read4, start, write_part, write4};
use numbering::{Closing, Key, Place};
use records::Record;
use refusal::cases::Refusal;
use store::NodeStore;
use store::limits::{Extent, Limits};
use types::Chained;

// The chain of a key's bucket.
fn bucket(key: Key) -> usize
    ensures { result ≡ bucket_of key.closing.0 key.place.0 }
{
    ((key.closing.0 % 16 + key.place.0 % 16) % 16 + 1) as usize
}

// The chain of a record with this key: the free one where the closing is 0.
fn home(key: Key) -> usize
    ensures { result ≡ home_of key.closing.0 key.place.0 }
{
    if key.closing.0 == 0 { 0 } else { bucket(key) }
}

#[tactic(auto, unfolding(chained_theory::specs::Layout::filled))]
fn fill_record(memory: &mut [u8], at: usize, next: u32, key: Key, bytes: &[u8])
    requires { at + 12 + length bytes.now ≤ length memory.old }
    ensures { memory.new ≡ filled memory.old at next key.closing.0 key.place.0 bytes.now }
{
    write4(memory, at, next);
    write4(memory, at + 4, key.closing.0);
    write4(memory, at + 8, key.place.0);
    write_part(memory, at + 12, bytes);
}

// Moves a record from the front of the free chain to the front of the key's bucket.
#[tactic(auto, using(crate::proofs::Rules::places))]
fn push_on(memory: &mut [u8], number: u32, key: Key, bytes: &[u8])
    requires narrow { length bytes.now ≤ 128 }
    requires few { (1 ≤ number) × (number ≤ 4194304) }
    requires fits { start_of (length bytes.now) number + (12 + length bytes.now) ≤ length memory.old }
    ensures { memory.new ≡ push_on memory.old (length bytes.now) number (bucket_of key.closing.0 key.place.0) key.closing.0 key.place.0 bytes.now }
{
    let at = start(bytes.len(), number);
    let head = 4 * bucket(key);
    let next = read4(memory, at);
    let follower = read4(memory, head);
    fill_record(memory, at, follower, key, bytes);
    write4(memory, 0, next);
    write4(memory, head, number);
}

// Which records are free once the chains are laid out anew.
#[derive(Clone, Copy)]
enum Forgotten {
    Every,
    Of(Closing),
}

impl Forgotten {
    // What a record's closing becomes.
    fn left(self, closing: u32) -> u32
        ensures { result ≡ without (every self) (which self) closing }
    {
        match self {
            Forgotten::Of(gone) if closing != gone.0 => closing,
            _ => 0,
        }
    }
}

// Empties the seventeen chains.
fn zero_heads(memory: &mut [u8])
    requires { 68 ≤ length memory.old }
    ensures zero { (j : ℕ) → j < 17 → head_at memory.new j ≡ 0 }
    ensures rest { (k : ℕ) → 68 ≤ k → slice_index memory.new k ≡ slice_index memory.old k }
{
    memory[..68].fill(0);
}

// Puts a record, which starts at `at`, in front of a chain, with this closing.
#[tactic(auto, unfolding(chained_theory::specs::Layout::front_of))]
fn front_of(memory: &mut [u8], at: usize, number: u32, chain: usize, closing: u32)
    requires fits { at + 8 ≤ length memory.old }
    requires past { 68 ≤ at }
    requires bucket { chain < 17 }
    ensures { memory.new ≡ front_of memory.old at number chain closing }
{
    write4(memory, at + 4, closing);
    let head = read4(memory, 4 * chain);
    write4(memory, at, head);
    write4(memory, 4 * chain, number);
}

// Lays the chains out anew from the records alone, without those that are forgotten. One walk over the records, which
// answers how many are free now. It counts the records that are done, of which its invariant speaks, and not the one in hand.
#[tactic(auto, using(crate::proofs::Rules::places))]
fn relay(memory: &mut [u8], width: usize, count: u32, forgotten: Forgotten) -> u32
    requires narrow { (width ≤ 128) × (count ≤ 4194304) }
    requires fits { chained_bytes width count ≤ length memory.old }
    ensures is { result ≡ count_of memory.new width count 0 }
    ensures laid { Laid memory.new width count }
    ensures nexts { (y : ℕ) → 1 ≤ y → y ≤ count → next_at memory.new width y ≤ count }
    ensures forgot { Forgot memory.old memory.new width count count (every forgotten) (which forgotten) }
{
    zero_heads(memory);
    let mut free = 0;
    for i in 0..count {
        let at = start(width, i + 1);
        let closing = forgotten.left(read4(memory, at + 4));
        let chain = home(Key {
            closing: Closing(closing),
            place: Place(read4(memory, at + 8)),
        });
        front_of(memory, at, i + 1, chain, closing);
        free += u32::from(closing == 0);
    }
    free
}

// The extent of a store with these limits, where it fits in so many bytes with so many records.
fn fitting(limits: Limits, count: u32, memory: usize) -> Result<Extent, Refusal>
    ensures { Answers result (refusal_of limits count memory) (λ extent. extent.limits ≡ limits) }
{
    let extent = Extent::new(limits)?;
    if (1..=4_194_304).contains(&count) && 68 + count as usize * (12 + limits.width) <= memory {
        Ok(extent)
    } else {
        Err(Refusal::MemoryUnfit)
    }
}

// Whether a store with these limits and so many records fits in so many bytes.
pub fn measure(limits: Limits, count: u32, memory: usize) -> Result<(), Refusal>
    ensures { Answers result (refusal_of limits count memory) (λ _. Unit {0}) }
{
    fitting(limits, count, memory)?;
    Ok(())
}

impl Chained {
    // A store in which nothing is written; one with an empty span where measuring refuses.
    pub fn new(memory: Vec<u8>, limits: Limits, count: u32) -> Chained
        ensures fit { refusal_of limits count (vec_len memory) ≡ None → IsEmpty result limits count }
        ensures unfit { refusal_of limits count (vec_len memory) ≡ Some MemoryUnfit → Empty (chained_meaning result) 1 1 0 2 0 }
        ensures kept { vec_len result.memory ≡ vec_len memory }
    {
        match fitting(limits, count, memory.len()) {
            Ok(extent) => Chained::emptied(memory, extent, count),
            Err(_) => Chained {
                memory,
                extent: Extent::empty(),
                count: 0,
                room: 0,
            },
        }
    }

    // The store on a memory that fits, with every record free.
    fn emptied(mut memory: Vec<u8>, extent: Extent, count: u32) -> Chained
        requires few { (1 ≤ count) × (count ≤ 4194304) }
        requires some { extent.limits.first ≤ extent.limits.last }
        requires fits { chained_bytes extent.limits.width count ≤ vec_len memory }
        ensures is { IsEmpty result extent.limits count }
        ensures kept { vec_len result.memory ≡ vec_len memory }
    {
        let room = relay(&mut memory, extent.limits.width, count, Forgotten::Every);
        Chained {
            memory,
            extent,
            count,
            room,
        }
    }

    // The memory that the store lay in.
    pub fn into_memory(self) -> Vec<u8>
        ensures { result ≡ self.memory }
    {
        self.memory
    }

    // The first record of a chain.
    #[tactic(auto, unfolding(chained_theory::specs::Layout::head_at))]
    fn first(&self, chain: usize) -> Option<Record<'_>>
        requires { (chain < 17) × (1 ≤ self.now.count) }
        ensures { IsRecord result self.now (head_at self.now.memory.items chain) }
    {
        Record::at(self, read4(&self.memory, 4 * chain))
    }

    // The record with the key: a walk along its bucket's chain, which has `count` records at most.
    fn seek(&self, key: Key) -> Option<Record<'_>>
        requires { inside (chained_meaning self.now) key.closing.0 key.place.0 ≡ true }
        ensures { IsRecord result self.now (sought self.now key.closing.0 key.place.0) }
    {
        let mut next = self.first(bucket(key));
        for _ in 0..self.count {
            let record = next?;
            if record.has(key) {
                return next;
            }
            next = record.next();
        }
        None
    }

    // How many places of a closing are written: a walk over the records, in one loop as in the flat store.
    fn count(&self, closing: Closing) -> u32
        requires { in_span (chained_meaning self.now) closing.0 ≡ true }
        ensures { result ≡ held_in (chained_meaning self.now) closing.0 }
    {
        let mut held = 0;
        for k in 0..self.count {
            held += u32::from(Record::new(self, k + 1).closing().0 == closing.0);
        }
        held
    }

    // The first free record's number.
    #[tactic(auto, unfolding(chained_theory::specs::Layout::head_at))]
    fn free(&self) -> u32
        requires { 1 ≤ self.now.room }
        ensures is { result ≡ head_at self.now.memory.items 0 }
        ensures within { (1 ≤ result) × (result ≤ self.now.count) }
    {
        read4(&self.memory, 0)
    }

    // Puts a record under a key that has none.
    fn push(&mut self, key: Key, bytes: &[u8])
        requires inside { inside (chained_meaning self.old) key.closing.0 key.place.0 ≡ true }
        requires wide { length bytes.now ≡ self.old.extent.limits.width }
        requires absent { sought self.old key.closing.0 key.place.0 ≡ 0 }
        requires some { 1 ≤ self.old.room }
        ensures { Put (chained_meaning self.old) (chained_meaning self.new) key.closing.0 key.place.0 bytes.now }
    {
        let number = self.free();
        push_on(&mut self.memory, number, key, bytes);
        self.room -= 1;
    }

    // Writes over the record that the key has, which starts at `at`.
    fn overwrite(&mut self, at: usize, key: Key, bytes: &[u8])
        requires inside { inside (chained_meaning self.old) key.closing.0 key.place.0 ≡ true }
        requires wide { length bytes.now ≡ self.old.extent.limits.width }
        requires found { sought self.old key.closing.0 key.place.0 ≢ 0 }
        requires is { at ≡ start_of self.old.extent.limits.width (sought self.old key.closing.0 key.place.0) }
        requires fits { at + (12 + self.old.extent.limits.width) ≤ vec_len self.old.memory }
        ensures { Put (chained_meaning self.old) (chained_meaning self.new) key.closing.0 key.place.0 bytes.now }
    {
        write_part(&mut self.memory, at + 12, bytes);
    }

    // Forgets a closing.
    fn forget(&mut self, closing: Closing)
        requires { in_span (chained_meaning self.old) closing.0 ≡ true }
        ensures { Cleared (chained_meaning self.old) (chained_meaning self.new) closing.0 }
    {
        self.room = relay(
            &mut self.memory,
            self.extent.limits.width,
            self.count,
            Forgotten::Of(closing),
        );
    }
}

impl NodeStore for Chained {
    ghost meaning = { chained_meaning };

    ghost sound = { chained_sound };

    fn put(&mut self, key: Key, bytes: &[u8]) -> Result<(), Refusal> {
        self.extent.limits.admit(key, bytes.len())?;
        if let Some(record) = self.seek(key) {
            let at = record.start();
            self.overwrite(at, key, bytes);
            return Ok(());
        }
        if self.room == 0 {
            return Err(Refusal::Full);
        }
        self.push(key, bytes);
        Ok(())
    }

    fn get(&mut self, key: Key, into: &mut [u8]) -> Result<bool, Refusal> {
        self.extent.limits.admit(key, into.len())?;
        let Some(record) = self.seek(key) else {
            return Ok(false);
        };
        into.copy_from_slice(record.bytes());
        Ok(true)
    }

    fn held(&self, closing: Closing) -> Result<u32, Refusal> {
        self.extent.limits.admit_closing(closing)?;
        Ok(self.count(closing))
    }

    fn clear(&mut self, closing: Closing) -> Result<(), Refusal> {
        self.extent.limits.admit_closing(closing)?;
        self.forget(closing);
        Ok(())
    }

    fn room(&self) -> u64 {
        self.room as u64
    }

    fn limits(&self) -> Limits {
        self.extent.limits
    }
}
