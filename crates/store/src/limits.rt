//! The limits of a store, as code holds them.
ghost use Rattle.std.specs.Prelude.{◌≡◌, ◌+◌, ◌-◌, ◌≤◌, not, [], ◌∷◌, ◌==◌};
ghost use Rattle.refusal.specs.declared.cases.Refusal.TheVariants.{KeyOutside, MemoryUnfit, WrongWidth};
ghost use Rattle.refusal.specs.Tables.{◌⇒◌, first as decides, Answers};
ghost use Rattle.store.specs.Meaning.{holds_key, spans, valid_limits};

use numbering::{Closing, Key};
use refusal::cases::Refusal;

// The bytes of a record, the first and the last closing, and the bound of the places, which are 1 to bound - 1.
#[derive(Clone, Copy)]
pub struct Limits {
    pub width: usize,
    pub first: u32,
    pub last: u32,
    pub bound: u32,
}

impl Limits {
    // Whether a store may have these limits.
    pub fn valid(self) -> bool
        ensures { result ≡ valid_limits self.width self.first self.last self.bound }
    {
        (1..=128).contains(&self.width)
            && (1..=self.last).contains(&self.first)
            && self.last <= 9999
            && (2..=2_097_152).contains(&self.bound)
    }

    // Whether the closing is one of the span.
    pub fn spans(self, closing: Closing) -> bool
        ensures { result ≡ spans self.first self.last closing.0 }
    {
        (self.first..=self.last).contains(&closing.0)
    }

    // Whether a record of n bytes can be kept under the key.
    pub fn admit(self, key: Key, n: usize) -> Result<(), Refusal>
        ensures { Answers result
            (decides ((not (holds_key self.first self.last self.bound key.closing.0 key.place.0) ⇒ KeyOutside) ∷ (not (n == self.width) ⇒ WrongWidth) ∷ []))
            (λ _. Unit {0}) }
    {
        if !self.spans(key.closing) || !(1..self.bound).contains(&key.place.0) {
            return Err(Refusal::KeyOutside);
        }
        if n != self.width {
            return Err(Refusal::WrongWidth);
        }
        Ok(())
    }

    // Whether the closing is in the span.
    pub fn admit_closing(self, closing: Closing) -> Result<(), Refusal>
        ensures { Answers result (decides ((not (spans self.first self.last closing.0) ⇒ KeyOutside) ∷ [])) (λ _. Unit {0}) }
    {
        if !self.spans(closing) {
            return Err(Refusal::KeyOutside);
        }
        Ok(())
    }
}

// Limits that a store can keep to: valid ones, or the empty span of a store on memory that does not fit.
#[derive(Clone, Copy)]
pub struct Extent {
    pub limits: Limits,
    ghost widths: { (1 ≤ limits.width) × (limits.width ≤ 128) },
    ghost closings: { (1 ≤ limits.first) × (limits.first ≤ limits.last + 1) × (limits.last ≤ 9999) },
    ghost places: { (2 ≤ limits.bound) × (limits.bound ≤ 2097152) },
}

impl Extent {
    // The extent with these limits, or the refusal where no store may have them.
    pub fn new(limits: Limits) -> Result<Extent, Refusal>
        ensures { Answers result
            (decides ((not (valid_limits limits.width limits.first limits.last limits.bound) ⇒ MemoryUnfit) ∷ []))
            (λ extent. extent.limits ≡ limits) }
    {
        if limits.valid() {
            Ok(Extent { limits })
        } else {
            Err(Refusal::MemoryUnfit)
        }
    }

    // How many closings the span has.
    pub fn closings(self) -> u32
        ensures { result ≡ self.limits.last + 1 - self.limits.first }
    {
        self.limits.last + 1 - self.limits.first
    }

    // The empty span.
    pub fn empty() -> Extent
        ensures { result.limits ≡ record { width = 1; first = 1; last = 0; bound = 2 } }
    {
        Extent {
            limits: Limits {
                width: 1,
                first: 1,
                last: 0,
                bound: 2,
            },
        }
    }
}
