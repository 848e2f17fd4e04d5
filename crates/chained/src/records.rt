//! A record of a chained store, as code that walks along the chains holds it.
ghost use Rattle.std.specs.Prelude.{◌≡◌, ◌+◌, ◌≤◌, length};

use crate::bytes::{read4, start};
use crate::types::Chained;
use numbering::{Closing, Key, Place};

// One of the records 1 to `count` of a store.
#[derive(Clone, Copy)]
pub(crate) struct Record<'a> {
    pub(crate) store: &'a Chained,
    pub(crate) number: u32,
    ghost within: { (1 ≤ number) × (number ≤ store.now.count) },
}

impl<'a> Record<'a> {
    ghost use Rattle.chained.specs.Records.{IsRecord, memory_of, width_of, record_start, record_next, record_closing, record_place, record_has, record_bytes};

    pub(crate) fn new(store: &'a Chained, number: u32) -> Record<'a>
        requires { (1 ≤ number) × (number ≤ store.now.count) }
        ensures number { result.number ≡ number }
        ensures store { result.store.now ≡ store.now }
    {
        Record { store, number }
    }

    // The record that a link leads to, none at 0.
    pub(crate) fn at(store: &'a Chained, link: u32) -> Option<Record<'a>>
        requires { link ≤ store.now.count }
        ensures { IsRecord result store.now link }
    {
        if link == 0 {
            None
        } else {
            Some(Record::new(store, link))
        }
    }

    // Where it starts.
    #[tactic(auto, using(crate::proofs::Rules::places))]
    pub(crate) fn start(self) -> usize
        ensures is { result ≡ record_start self.entry }
        ensures fits { result + (12 + width_of self.entry) ≤ length (memory_of self.entry) }
    {
        start(self.store.extent.limits.width, self.number)
    }

    // The record that follows in its chain.
    #[tactic(auto, unfolding(chained_theory::specs::Layout::next_at))]
    pub(crate) fn next(self) -> Option<Record<'a>>
        ensures { IsRecord result self.entry.store.now (record_next self.entry) }
    {
        Record::at(self.store, read4(&self.store.memory, self.start()))
    }

    // The closing of its key, 0 where the record is free.
    #[tactic(auto, unfolding(chained_theory::specs::Layout::closing_at))]
    pub(crate) fn closing(self) -> Closing
        ensures { result.0 ≡ record_closing self.entry }
    {
        Closing(read4(&self.store.memory, self.start() + 4))
    }

    // The place of its key.
    #[tactic(auto, unfolding(chained_theory::specs::Layout::place_at))]
    pub(crate) fn place(self) -> Place
        ensures { result.0 ≡ record_place self.entry }
    {
        Place(read4(&self.store.memory, self.start() + 8))
    }

    pub(crate) fn has(self, key: Key) -> bool
        ensures { result ≡ record_has self.entry key.closing.0 key.place.0 }
    {
        self.closing() == key.closing && self.place() == key.place
    }

    // The bytes behind its key.
    pub(crate) fn bytes(self) -> &'a [u8]
        ensures is { result.now ≡ record_bytes self.entry }
        ensures len { length result.now ≡ width_of self.entry }
    {
        let from = self.start() + 12;
        &self.store.memory[from..from + self.store.extent.limits.width]
    }
}
