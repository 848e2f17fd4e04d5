//! Digests: what a digest is, its laws, and the digests `Rehearsal` and `Sha256`.
//!
//! `specs/Hashes` is what the rest of the library knows of digests. The meaning belongs to the value, so that an enum
//! of digests is one too. A new digest implements `Digest` and shows the laws; nothing above may ask which it is.
#![tactic(auto)]

ghost use Rattle.std.specs.Prelude.{◌≡◌, ℕ, List};
ghost use Rattle.refusal.specs.Tables.{Answers};
ghost use Rattle.digest.specs.Hashes.{Hash, HashLaws, too_long};
ghost use Rattle.digest.specs.Digests.{rehearsal, fips, any};
ghost use Rattle.digest.specs.HashedLaws.{rehearsal_laws, fips_laws, any_laws};

pub mod kinds;

use kinds::{AnyDigest, Rehearsal, Sha256};
use refusal::cases::Refusal;

// The longest text that is digested.
const MOST: usize = 65536;

// The text, refused where it is longer.
fn short_enough(text: &[u8]) -> Result<&[u8], Refusal>
    ensures { Answers result (too_long text.now) (λ t. t.now ≡ text.now) }
{
    if text.len() > MOST {
        return Err(Refusal::TextTooLong);
    }
    Ok(text)
}

pub trait Digest {
    ghost hash: { Self → Hash };

    // The digest's number in sheets and files.
    fn number(&self) -> u8
        ensures { result ≡ (hash self.now).number };

    // The digest of a text; refused exactly where the text has more than 65,536 bytes.
    fn digest(&self, text: &[u8]) -> Result<[u8; 32], Refusal>
        ensures { Answers result (too_long text.now) (λ d. d ≡ (hash self.now).of text.now) };

    ghost lawful: { (d : Self) → HashLaws (hash d) };
}

impl Digest for Rehearsal {
    ghost hash = { λ _. rehearsal };

    ghost lawful = { λ _. rehearsal_laws };

    fn number(&self) -> u8 {
        9
    }

    fn digest(&self, text: &[u8]) -> Result<[u8; 32], Refusal> {
        let text = short_enough(text)?;
        let mut out = [0u8; 32];
        out[31] = text.iter().fold(0, |sum, b| sum.wrapping_add(*b));
        Ok(out)
    }
}

impl Digest for Sha256 {
    ghost hash = { λ _. fips };

    ghost lawful = { λ _. fips_laws };

    fn number(&self) -> u8 {
        1
    }

    fn digest(&self, text: &[u8]) -> Result<[u8; 32], Refusal> {
        Ok(sha256::sha256(short_enough(text)?))
    }
}

impl Digest for AnyDigest {
    ghost hash = { any };

    ghost lawful = { any_laws };

    fn number(&self) -> u8 {
        match self {
            AnyDigest::Rehearsal => Rehearsal.number(),
            AnyDigest::Sha256 => Sha256.number(),
        }
    }

    fn digest(&self, text: &[u8]) -> Result<[u8; 32], Refusal> {
        match self {
            AnyDigest::Rehearsal => Rehearsal.digest(text),
            AnyDigest::Sha256 => Sha256.digest(text),
        }
    }
}
