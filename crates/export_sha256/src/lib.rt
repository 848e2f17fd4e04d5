//! SHA-256 for C, so that a benchmark can be linked with it.
//!
//! One function over numbers and byte slices; nothing of the library rests on it.
#![tactic(auto)]

ghost use Rattle.std.specs.Prelude.{◌≡◌, length};
ghost use Rattle.sha256.specs.Sha256 as spec;

// Writes the digest of a text to a buffer of 32 bytes, and nothing to any other.
#[unsafe(no_mangle)]
pub extern "C" fn wuyllamo_sha256(text: &[u8], out: &mut [u8])
    ensures digest { length out.old ≡ 32 → out.new ≡ spec.sha256 text.now }
    ensures other { (length out.old ≡ 32 → ⊥) → out.new ≡ out.old }
{
    if out.len() == 32 {
        out.copy_from_slice(&sha256::sha256(text));
    }
}
