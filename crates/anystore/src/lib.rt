//! A store that is flat or chained, chosen while a program runs, under the contract of every store.
//!
//! A third store is a third case of the enum, of its meaning and of each call here. Each call matches on the store and hands
//! on: the stores are chosen among these, so an enum says more than a `dyn`.
#![tactic(auto)]

ghost use Rattle.anystore.specs.Meaning.{any_meaning};
ghost use Rattle.flat.specs.Sounds.{flat_sound};
ghost use Rattle.chained.specs.Sounds.{chained_sound};
ghost use Rattle.anystore.specs.declared.types.AnyStore.TheVariants.{Flat, Chained};

pub mod types;

use numbering::{Closing, Key};
use refusal::cases::Refusal;
use store::NodeStore;
use store::limits::Limits;
use types::AnyStore;

impl NodeStore for AnyStore {
    ghost meaning = { any_meaning };

    ghost sound = { elim [ Flat s ↦ flat_sound s | Chained s ↦ chained_sound s ] };

    fn put(&mut self, key: Key, bytes: &[u8]) -> Result<(), Refusal> {
        match self {
            AnyStore::Flat(s) => s.put(key, bytes),
            AnyStore::Chained(s) => s.put(key, bytes),
        }
    }

    fn get(&mut self, key: Key, into: &mut [u8]) -> Result<bool, Refusal> {
        match self {
            AnyStore::Flat(s) => s.get(key, into),
            AnyStore::Chained(s) => s.get(key, into),
        }
    }

    fn held(&self, closing: Closing) -> Result<u32, Refusal> {
        match self {
            AnyStore::Flat(s) => s.held(closing),
            AnyStore::Chained(s) => s.held(closing),
        }
    }

    fn clear(&mut self, closing: Closing) -> Result<(), Refusal> {
        match self {
            AnyStore::Flat(s) => s.clear(closing),
            AnyStore::Chained(s) => s.clear(closing),
        }
    }

    fn room(&self) -> u64 {
        match self {
            AnyStore::Flat(s) => s.room(),
            AnyStore::Chained(s) => s.room(),
        }
    }

    fn limits(&self) -> Limits {
        match self {
            AnyStore::Flat(s) => s.limits(),
            AnyStore::Chained(s) => s.limits(),
        }
    }
}
