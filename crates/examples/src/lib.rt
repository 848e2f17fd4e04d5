//! The worked examples of the documents, shown about the definitions.
//!
//! Two tables, `specs/Table`; a new example is a new row of one. Nothing rests on this crate.
#![tactic(auto)]

ghost use Rattle.std.specs.Prelude.{◌≡◌, T, length};
ghost use Rattle.examples.specs.Table.{rows, audit_rows, hold};

// How many rows the table has: every one of them holds.
pub fn count() -> usize
    ensures rows { result ≡ length rows }
    ensures hold { T (hold rows) }
{
    18
}

// How many rows the table of the audit has: every one of them holds.
pub fn audit_count() -> usize
    ensures rows { result ≡ length audit_rows }
    ensures hold { T (hold audit_rows) }
{
    10
}
