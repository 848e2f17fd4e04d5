//! The sheet of a closing, written and read.
//!
//! `specs/Layout` has the layout once: kinds, depth and closing, the root's digest and the total. A change of the layout
//! is made there and in the two functions here.
#![tactic(auto)]

ghost use Rattle.std.specs.Prelude.{◌≡◌, ℕ, ◌+◌, ◌<◌, false, not, ◌&&◌, [], ◌∷◌, length, Some, None, nat_eq, nat_lt};
ghost use Rattle.refusal.specs.declared.cases.Refusal.TheVariants.{BufferTooShort};
ghost use Rattle.refusal.specs.Tables.{◌⇒◌, first, written, Answers};
ghost use Rattle.tree.specs.Trees.{bad_limits};
ghost use Rattle.sheet.specs.Layout.{head as head_bytes, sheet_bytes, sheet_refusal, read_sheet};
ghost use Rattle.sheet.specs.Meant.{sheet_of};

pub mod types;

use amount::Amount;
use digest::Digest;
use node::{read_node, write_node};
use numbering::Closing;
use octets::{BigEndian, read_be};
use refusal::cases::Refusal;
use tree::bad_limits;
use types::Sheet;

// Whether the kinds are not those of the reader.
fn other_kinds<A: Amount, D: Digest>(digest: &D, amount_kind: u8, digest_kind: u8) -> bool
    ensures { result ≡ not (nat_eq amount_kind A.kind.number && nat_eq digest_kind (D.hash digest.now).number) }
{
    !(amount_kind == A::number() && digest_kind == digest.number())
}

// The sheet that these bytes are; refused by the first condition of its table.
pub fn read<A: Amount, D: Digest>(digest: &D, bytes: &[u8]) -> Result<Sheet<A>, Refusal>
    ensures { Answers result (sheet_refusal A.kind (D.hash digest.now) bytes.now)
        (λ s. (read_sheet A.kind (D.hash digest.now) bytes.now ≡ Some (sheet_of A.meaning s))
        × (sheet_bytes A.kind (D.hash digest.now) (sheet_of A.meaning s) ≡ bytes.now)) }
{
    if bytes.len() != 39 + A::width() {
        return Err(Refusal::SheetLength);
    }
    let [amount_kind, digest_kind, depth, rest @ ..] = bytes else {
        return Err(Refusal::SheetLength);
    };
    if other_kinds::<A, D>(digest, *amount_kind, *digest_kind) {
        return Err(Refusal::OtherKind);
    }
    let Some(number) = read_be(rest) else {
        return Err(Refusal::SheetLength);
    };
    if bad_limits(Closing(number), *depth as u32) {
        return Err(Refusal::BadLimits);
    }
    match read_node(&rest[4..rest.len()]) {
        Ok(root) => Ok(Sheet {
            closing: Closing(number),
            depth: *depth,
            root,
        }),
        Err(_) => Err(Refusal::BadAmount(39)),
    }
}

// The first seven bytes of a sheet, and of each of its files.
pub fn head<A: Amount, D: Digest>(digest: &D, closing: Closing, depth: u8) -> [u8; 7]
    ensures { result ≡ head_bytes A.kind (D.hash digest.now) closing.0 depth }
{
    let [a, b, c, d]: [u8; 4] = closing.0.be_bytes();
    [A::number(), digest.number(), depth, a, b, c, d]
}

// Writes the sheet to the front of the buffer, and answers its length. A sheet with a closing and a depth that there are
// reads back to itself.
pub fn write<A: Amount, D: Digest>(
    digest: &D,
    sheet: &Sheet<A>,
    out: &mut [u8],
) -> Result<usize, Refusal>
    ensures answers { Answers result
        (first ((nat_lt (length out.old) (39 + A.kind.width) ⇒ BufferTooShort) ∷ []))
        (λ n. (n ≡ 39 + A.kind.width)
        × (out.new ≡ written (sheet_bytes A.kind (D.hash digest.now) (sheet_of A.meaning sheet.now)) out.old)
        × (bad_limits sheet.now.closing.0 sheet.now.depth ≡ false
        → (sheet_refusal A.kind (D.hash digest.now) (sheet_bytes A.kind (D.hash digest.now) (sheet_of A.meaning sheet.now)) ≡ None)
        × (read_sheet A.kind (D.hash digest.now) (sheet_bytes A.kind (D.hash digest.now) (sheet_of A.meaning sheet.now)) ≡ Some (sheet_of A.meaning sheet.now)))) }
    ensures refused { length out.old < 39 + A.kind.width → out.new ≡ out.old }
{
    let end = 39 + A::width();
    if out.len() < end {
        return Err(Refusal::BufferTooShort);
    }
    out[0..7].copy_from_slice(&head::<A, D>(digest, sheet.closing, sheet.depth));
    // a match, as the proof reads in its arm what was written
    match write_node(&sheet.root, &mut out[7..end]) {
        Ok(_) => Ok(end),
        Err(_) => unreachable(),
    }
}
