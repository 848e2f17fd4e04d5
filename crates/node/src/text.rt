//! A text that grows part by part.
ghost use Rattle.std.specs.Prelude.{◌≡◌, ℕ, ◌+◌, ◌≤◌, List, [], ◌∷◌, ◌++◌, length, take};

use amount::Amount;
use std::marker::Model;

// The longest text has 225 bytes: an inner one at the greatest width. There is no heap, so they lie in an array; and no `ArrayVec`,
// since an amount is written straight into the bytes behind what there is.
#[derive(Drop)]
pub struct Text {
    bytes: [u8; 225],
    len: usize,
}

// What it says.
impl Model for Text {
    ghost Value = { List ℕ };

    ghost view = { λ t. take t.len t.bytes };

    ghost invariant = { λ t. t.len ≤ 225 };
}

impl Text {
    pub(crate) fn empty() -> Text
        ensures { result ≡ [] }
    {
        Text {
            bytes: [0; 225],
            len: 0,
        }
    }

    // A text of one byte.
    pub(crate) fn of_byte(b: u8) -> Text
        ensures { result ≡ b ∷ [] }
    {
        let mut bytes = [0u8; 225];
        bytes[0] = b;
        Text { bytes, len: 1 }
    }

    // Puts a part behind what there is.
    pub(crate) fn push(&mut self, part: &[u8])
        requires { length self.old + length part.now ≤ 225 }
        ensures { self.new ≡ self.old ++ part.now }
    {
        let end = self.len + part.len();
        self.bytes[self.len..end].copy_from_slice(part);
        self.len = end;
    }

    // Puts the bytes of an amount behind what there is.
    pub(crate) fn push_amount<A: Amount>(&mut self, amount: A)
        requires { length self.old + A.kind.width ≤ 225 }
        ensures { self.new ≡ self.old ++ A.kind.bytes (A.meaning amount) }
    {
        let end = self.len + A::width();
        // a match, as the proof reads in its arm what was written
        match amount.write(&mut self.bytes[self.len..end]) {
            Ok(_) => {}
            Err(_) => unreachable(),
        }
        self.len = end;
    }

    // What it says.
    pub fn as_slice(&self) -> &[u8]
        ensures value { result.now ≡ self.now }
        ensures fits { length self.now ≤ 225 }
    {
        &self.bytes[0..self.len]
    }
}
