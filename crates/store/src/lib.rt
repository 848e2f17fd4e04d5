//! Node stores: what a store means, and the trait that every store implements.
//!
//! `specs/Meaning` and `specs/Calls` are all that the rest of the library knows of stores. A new store implements
//! `NodeStore` over its own representation; nothing above this crate may use more than the contracts here say.
#![tactic(auto)]

ghost use Rattle.std.specs.Prelude.{◌≡◌, length};
ghost use Rattle.refusal.specs.Tables.{Answers};
ghost use Rattle.store.specs.Meaning.{Meaning, Sound};
ghost use Rattle.store.specs.Counts.{held as held_in};
ghost use Rattle.store.specs.Calls.{put_refusal, get_refusal, held_refusal, clear_refusal, Put, Cleared, Got, Refused};

pub mod limits;

use limits::Limits;
use numbering::{Closing, Key};
use refusal::cases::Refusal;

pub trait NodeStore {
    ghost meaning: { Self → Meaning };

    // Sets the record under a key.
    fn put(&mut self, key: Key, bytes: &[u8]) -> Result<(), Refusal>
        ensures answers { Answers result
            (put_refusal (meaning self.old) key.closing.0 key.place.0 (length bytes.now))
            (λ _. Put (meaning self.old) (meaning self.new) key.closing.0 key.place.0 bytes.now) }
        ensures refused { Refused result (meaning self.new ≡ meaning self.old) };

    // Fills the buffer with the record under a key, or answers false where there is none: a flag, and no `Option` of the
    // record, since there is no heap and the record is the buffer's. What the store means stays, though what it keeps nearby
    // may change.
    fn get(&mut self, key: Key, into: &mut [u8]) -> Result<bool, Refusal>
        ensures same { meaning self.new ≡ meaning self.old }
        ensures answers { Answers result
            (get_refusal (meaning self.old) key.closing.0 key.place.0 (length into.old))
            (Got (meaning self.old) key.closing.0 key.place.0 into.old into.new) }
        ensures refused { Refused result (into.new ≡ into.old) };

    // How many places of a closing are written.
    fn held(&self, closing: Closing) -> Result<u32, Refusal>
        ensures { Answers result
            (held_refusal (meaning self.now) closing.0)
            (λ n. n ≡ held_in (meaning self.now) closing.0) };

    // Forgets every record of a closing.
    fn clear(&mut self, closing: Closing) -> Result<(), Refusal>
        ensures answers { Answers result
            (clear_refusal (meaning self.old) closing.0)
            (λ _. Cleared (meaning self.old) (meaning self.new) closing.0) }
        ensures refused { Refused result (meaning self.new ≡ meaning self.old) };

    // How many new keys can still be written.
    fn room(&self) -> u64
        ensures { result ≡ (meaning self.now).room };

    // The width, the span and the bound, by which a caller sees whether the store suits.
    fn limits(&self) -> Limits
        ensures { (result.width ≡ (meaning self.now).width)
            × (result.first ≡ (meaning self.now).first)
            × (result.last ≡ (meaning self.now).last)
            × (result.bound ≡ (meaning self.now).bound) };

    ghost sound: { (s : Self) → Sound (meaning s) };
}
