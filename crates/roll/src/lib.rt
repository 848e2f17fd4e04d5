//! The roll: the closings that stand, at most eight, in the order in which they were closed.
//!
//! Fixed memory, so that closing a ledger allocates nothing and cannot fail. A clause sees it as the list of its closings. No
//! other room of the library is known here but the numberings.
#![tactic(auto)]

ghost use Rattle.std.specs.Prelude.{◌≡◌, ◌<◌, ◌≤◌, [], ◌∷◌, ◌++◌, length};
ghost use Rattle.roll.specs.Rolls.{under_number, without_number};
ghost use Rattle.roll.specs.Stands.{number_of};

pub mod types;

use arrayvec::ArrayVec;
use numbering::Closing;
use std::marker::Model;
use types::Stand;

// The closing of a number.
fn find_in(stands: &[Stand], closing: Closing) -> Option<Stand>
    ensures { result ≡ under_number number_of closing.0 stands.now }
{
    stands.iter().copied().find(|s| s.closing == closing)
}

// Takes a number off a list.
fn remove_from(stands: &mut ArrayVec<Stand, 8>, closing: Closing)
    ensures is { stands.new.items ≡ without_number number_of closing.0 stands.old.items }
    ensures fewer { length stands.new.items ≤ length stands.old.items }
{
    stands.retain(|s| s.closing != closing);
}

#[derive(Drop)]
pub struct Roll {
    stands: ArrayVec<Stand, 8>,
}

impl Model for Roll {
    ghost use Rattle.std.specs.Prelude.{◌≤◌, List, length};
    ghost use Rattle.roll.specs.declared.types.Stand.{Stand as StandSaid};

    ghost Value = { List StandSaid };

    ghost view = { λ r. r.stands.items };

    ghost invariant = { λ r. length r.stands.items ≤ 8 };
}

impl Roll {
    // A roll with nothing on it.
    pub fn new() -> Roll
        ensures { result ≡ [] }
    {
        Roll {
            stands: ArrayVec::new(),
        }
    }

    // How many closings stand: at most eight.
    pub fn len(&self) -> usize
        ensures value { result ≡ length self.now }
        ensures most { length self.now ≤ 8 }
    {
        self.stands.len()
    }

    // The closing of a number, where it stands.
    pub fn find(&self, closing: Closing) -> Option<Stand>
        ensures is { result ≡ under_number number_of closing.0 self.now }
        ensures most { length self.now ≤ 8 }
    {
        find_in(&self.stands, closing)
    }

    // Puts a closing behind the others, where fewer than eight stand; otherwise nothing changes.
    pub fn add(&mut self, stand: Stand)
        ensures added { length self.old < 8 → self.new ≡ self.old ++ (stand ∷ []) }
        ensures full { 8 ≤ length self.old → self.new ≡ self.old }
        ensures most { (length self.old ≤ 8) × (length self.new ≤ 8) }
    {
        let _ = self.stands.try_push(stand);
    }

    // Takes a number off the roll.
    pub fn remove(&mut self, closing: Closing)
        ensures is { self.new ≡ without_number number_of closing.0 self.old }
        ensures most { (length self.old ≤ 8) × (length self.new ≤ 8) }
    {
        remove_from(&mut self.stands, closing);
    }
}
