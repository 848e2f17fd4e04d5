//! The customer's check of a file under a sheet.
//!
//! `specs/Paths` says what a file says along its path, `specs/Checks` when it is refused; the audit is stated with these
//! too. The file is gone through twice by its reader: for the amounts, then upwards.
#![tactic(auto)]

ghost use Rattle.std.specs.Prelude.{◌≡◌, ℕ, ◌+◌, ◌-◌, ◌*◌, ◌/◌, ◌%◌, ◌^◌, ◌<◌, ◌≤◌, not, T, List, [], ◌∷◌, length, drop, is_some, IsOkAnd, if◌then◌else◌, Some, None, ◌==◌};
ghost use Rattle.refusal.specs.Tables.{Answers};
ghost use Rattle.sheet.specs.Meant.{sheet_of};
ghost use Rattle.file.specs.Layout.{file_bytes, file_length};
ghost use Rattle.file.specs.Fields.{IsField};
ghost use Rattle.verify.specs.Paths.{file_of, path_node};
ghost use Rattle.verify.specs.Checks.{shape_refusal, field_refusal, amounts_refusal, join_refusal_at, joins_refusal, top_refusal, file_refusal, under_refusal, check_refusal, leaf_place};
ghost use Rattle.sheet.specs.Layout.{Sheet as SheetSaid, read_sheet, sheet_bytes};
ghost use Rattle.std.specs.List.{slice_get};
ghost use Rattle.file.specs.Ledgers.{Ledger, ledger_sheet, line_file};
ghost use Rattle.verify.specs.Walks.{Walks};
ghost use Rattle.amount.specs.Kinds.{join_refusal};
ghost use Rattle.octets.specs.Tests.{same};
ghost use Rattle.node.specs.Texts.{Line as LineSaid, inner_node, node_bytes};
ghost use Rattle.node.specs.Meant.{node_of};
ghost use Rattle.file.specs.Fields.{field_bytes, length_at};

mod types;

use amount::Amount;
use digest::Digest;
use file::Fields;
use file::types::{Field, Found};
use node::types::{Line, Node};
use node::{inner, leaf, node_text, read_node};
use numbering::{Closing, Place};
use octets::{read_be, same_bytes};
use refusal::cases::Refusal;
use sheet::head;
use sheet::types::Sheet;
use tree::leaf_count;
use types::Walker;

// Whether the amount of a field is one.
fn judge<A: Amount>(found: Found) -> Result<(), Refusal>
    requires { found.offset + 32 < 2 ^ 64 }
    ensures { (s : List ℕ) (i : ℕ) → IsField A.kind.width s i found.entry → Answers result (field_refusal A.kind s i) (λ _. Unit {0}) }
{
    match found.field {
        Field::Balance(part) if A::read(part).is_err() => Err(Refusal::BadAmount(found.offset)),
        Field::Step(part) if read_node::<A>(part).is_err() => {
            Err(Refusal::BadAmount(found.offset + 32))
        }
        _ => Ok(()),
    }
}

// Every amount of a file, in file order.
fn check_amounts<A: Amount>(file: &[u8], depth: u32) -> Result<(), Refusal>
    requires { (depth ≤ 20) × (length file.now ≡ file_length A.kind.width depth) }
    ensures { Answers result (amounts_refusal A.kind depth file.now) (λ _. Unit {0}) }
{
    for found in Fields::new::<A>(file, depth) {
        judge::<A>(found)?;
    }
    Ok(())
}

// Whether the path's node at a height is the left one: bit j of the leaf number is 0.
fn on_left(leaf: u32, j: u32) -> bool
    requires { j < 32 }
    ensures { result ≡ (leaf / 2 ^ j % 2 == 0) }
{
    (leaf >> j) & 1 == 0
}

// The node over the path's node at a height and the step beside it, each on its side.
fn over<A: Amount, D: Digest>(
    digest: &D,
    leaf: u32,
    height: u32,
    own: &Node<A>,
    step: &Node<A>,
) -> Result<Node<A>, Refusal>
    requires { height < 32 }
    ensures { Answers result
        (join_refusal A.kind (A.meaning (if leaf / 2 ^ height % 2 == 0 then own.now else step.now).amount) (A.meaning (if leaf / 2 ^ height % 2 == 0 then step.now else own.now).amount))
        (λ n. node_of A.meaning n ≡ inner_node A.kind (D.hash digest.now) (node_of A.meaning (if leaf / 2 ^ height % 2 == 0 then own.now else step.now)) (node_of A.meaning (if leaf / 2 ^ height % 2 == 0 then step.now else own.now))) }
{
    if on_left(leaf, height) {
        inner(digest, own, step)
    } else {
        inner(digest, step, own)
    }
}

// Sixteen bytes by value. No other part comes, but that is known only where the clause of `walk` says which field it is; so zeros
// stand for any other.
fn sixteen(part: &[u8]) -> [u8; 16]
    ensures { length part.now ≡ 16 → result ≡ part.now }
{
    part.try_into().unwrap_or([0; 16])
}

// One field further up.
fn walk<A: Amount, D: Digest>(
    digest: &D,
    closing: Closing,
    leaf_number: u32,
    walker: Walker<A>,
    found: Found,
) -> Result<Walker<A>, Refusal>
    requires { walker.height < 32 }
    ensures { (s : List ℕ) (depth i : ℕ) → IsField A.kind.width s i found.entry → length (field_bytes A.kind.width s i) ≡ length_at A.kind.width i → i < 4 + depth
        → field_refusal A.kind s i ≡ None → leaf_number ≡ (file_of A.kind depth s).leaf → Walks A.meaning A.kind (D.hash digest.now) closing.0 depth s i walker
        → Answers result (join_refusal_at A.kind (D.hash digest.now) closing.0 (file_of A.kind depth s) i)
        (λ w. Walks A.meaning A.kind (D.hash digest.now) closing.0 depth s (i + 1) w) }
{
    match found.field {
        Field::Head(_) => Ok(walker),
        Field::Customer(part) => Ok(Walker {
            customer: sixteen(part),
            ..walker
        }),
        Field::Salt(part) => Ok(Walker {
            salt: sixteen(part),
            ..walker
        }),
        Field::Balance(part) => {
            let Ok(balance) = A::read(part) else {
                return Err(Refusal::BadAmount(found.offset));
            };
            let line = Line {
                customer: walker.customer,
                salt: walker.salt,
                balance,
            };
            Ok(Walker {
                own: leaf(digest, closing, &line),
                ..walker
            })
        }
        Field::Step(part) => {
            let Ok(step) = read_node(part) else {
                return Err(Refusal::BadAmount(found.offset));
            };
            let Ok(own) = over(digest, leaf_number, walker.height, &walker.own, &step) else {
                return Err(Refusal::JoinUnwritable(found.offset));
            };
            Ok(Walker {
                own,
                height: walker.height + 1,
                ..walker
            })
        }
    }
}

// The top of the path, from the leaf up.
fn climb<A: Amount, D: Digest>(
    digest: &D,
    closing: Closing,
    leaf_number: u32,
    depth: u32,
    file: &[u8],
) -> Result<Node<A>, Refusal>
    requires deep { depth ≤ 20 }
    requires long { length file.now ≡ file_length A.kind.width depth }
    requires amounts { amounts_refusal A.kind depth file.now ≡ None }
    requires number { leaf_number ≡ (file_of A.kind depth file.now).leaf }
    ensures { Answers result (joins_refusal A.kind (D.hash digest.now) closing.0 depth (file_of A.kind depth file.now))
        (λ n. node_of A.meaning n ≡ path_node A.kind (D.hash digest.now) closing.0 (file_of A.kind depth file.now) depth) }
{
    // zeros, till the fields that come first are gone through
    let mut walker = Walker {
        customer: [0; 16],
        salt: [0; 16],
        own: Node {
            digest: [0; 32],
            amount: A::zero(),
        },
        height: 0,
    };
    for found in Fields::new::<A>(file, depth) {
        walker = walk(digest, closing, leaf_number, walker, found)?;
    }
    Ok(walker.own)
}

// Whether two nodes have the same bytes: an amount has no equality but that of its bytes.
fn same_node<A: Amount>(a: &Node<A>, b: &Node<A>) -> bool
    ensures { result ≡ same (node_bytes A.kind (node_of A.meaning a.now)) (node_bytes A.kind (node_of A.meaning b.now)) }
{
    same_bytes(node_text(a).as_slice(), node_text(b).as_slice())
}

// Length, first seven bytes and leaf number of a file; answers the leaf number.
fn check_shape<A: Amount, D: Digest>(
    digest: &D,
    sheet: &Sheet<A>,
    file: &[u8],
) -> Result<u32, Refusal>
    requires { sheet.now.depth ≤ 20 }
    ensures { Answers result (shape_refusal A.kind (D.hash digest.now) (sheet_of A.meaning sheet.now) file.now)
        (λ n. (n ≡ (file_of A.kind sheet.now.depth file.now).leaf) × (length file.now ≡ file_length A.kind.width sheet.now.depth) × (n < 2 ^ sheet.now.depth)) }
{
    let width = A::width();
    if file.len() != 43 + width + sheet.depth as usize * (32 + width) {
        return Err(Refusal::FileLength);
    }
    let head = head::<A, D>(digest, sheet.closing, sheet.depth);
    if !same_bytes(&file[0..7], &head) {
        return Err(Refusal::OtherSheet);
    }
    let Some(leaf_number) = read_be(&file[7..file.len()]) else {
        return Err(Refusal::FileLength);
    };
    if leaf_number >= leaf_count(sheet.depth as u32) {
        return Err(Refusal::LeafOutside);
    }
    Ok(leaf_number)
}

// The check of a file under a sheet in hand. It passes exactly if the top of the path is the sheet's digest and total, and
// answers the leaf's place.
pub fn check_file<A: Amount, D: Digest>(
    digest: &D,
    sheet: &Sheet<A>,
    file: &[u8],
) -> Result<Place, Refusal>
    ensures { Answers result (under_refusal A.kind (D.hash digest.now) (sheet_of A.meaning sheet.now) file.now)
        (λ p. p.0 ≡ leaf_place A.kind (sheet_of A.meaning sheet.now) file.now) }
{
    if sheet.depth > 20 {
        return Err(Refusal::BadLimits);
    }
    let depth = sheet.depth as u32;
    let leaf_number = check_shape(digest, sheet, file)?;
    check_amounts::<A>(file, depth)?;
    let top = climb(digest, sheet.closing, leaf_number, depth, file)?;
    if !same_node(&top, &sheet.root) {
        return Err(Refusal::RootDiffers);
    }
    Ok(Place(leaf_count(depth) + leaf_number))
}

// The customer's check: a file under a sheet, both as bytes of any length and content. Where it passes, the balance in the
// file is under the total on the sheet, and the file has exactly the bytes of what it says. The file of every line of a
// ledger passes under that ledger's sheet.
pub fn check<A: Amount, D: Digest>(digest: &D, sheet: &[u8], file: &[u8]) -> Result<Place, Refusal>
    ensures answers { Answers result (check_refusal A.kind (D.hash digest.now) sheet.now file.now)
        (λ p. ((s : SheetSaid) → read_sheet A.kind (D.hash digest.now) sheet.now ≡ Some s
        → (p.0 ≡ leaf_place A.kind s file.now)
        × T (A.kind.under (file_of A.kind s.depth file.now).line.balance s.root.amount)
        × (file_bytes A.kind (D.hash digest.now) s.closing s.depth (file_of A.kind s.depth file.now) ≡ file.now))) }
    ensures own { (closing depth n : ℕ) (lines : List LineSaid) (l : LineSaid) → Ledger A.kind closing depth lines → slice_get lines n ≡ Some l
        → sheet.now ≡ sheet_bytes A.kind (D.hash digest.now) (ledger_sheet A.kind (D.hash digest.now) closing lines depth)
        → file.now ≡ file_bytes A.kind (D.hash digest.now) closing depth (line_file A.kind (D.hash digest.now) closing lines depth n l)
        → IsOkAnd result (λ p. p.0 ≡ 2 ^ depth + n) }
{
    let read = sheet::read::<A, D>(digest, sheet)?;
    check_file(digest, &read, file)
}
