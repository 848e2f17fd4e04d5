//! The customer's check for C, with single amounts and SHA-256, so that a benchmark can be linked with it.
//!
//! One function over numbers and byte slices; nothing of the library rests on it.
#![tactic(auto)]

ghost use Rattle.std.specs.Prelude.{◌≡◌, Some, None};
ghost use Rattle.refusal.specs.declared.cases.Refusal.{Refusal as RefusalSaid};
ghost use Rattle.amount.specs.Rows.{single};
ghost use Rattle.digest.specs.Digests.{fips};
ghost use Rattle.sheet.specs.Layout.{Sheet as SheetSaid, read_sheet};
ghost use Rattle.verify.specs.Checks.{check_refusal, leaf_place};

use digest::kinds::Sha256;
use row::Single;
use verify::check;

// The leaf's place where the file passes under the sheet, and 0 where it is refused.
#[unsafe(no_mangle)]
pub extern "C" fn wuyllamo_check(sheet: &[u8], file: &[u8]) -> u32
    ensures passes { check_refusal single fips sheet.now file.now ≡ None
        → (s : SheetSaid) → read_sheet single fips sheet.now ≡ Some s → result ≡ leaf_place single s file.now }
    ensures refused { (e : RefusalSaid) → check_refusal single fips sheet.now file.now ≡ Some e → result ≡ 0 }
{
    match check::<Single, Sha256>(&Sha256, sheet, file) {
        Ok(place) => place.0,
        // one number for C: no leaf has place 0
        Err(_) => 0,
    }
}
