//! The promise of the audit, whole: definitions and proof.
//!
//! `specs/Promise` puts together what holds whoever made the files (`audit`) and what holds of honest closings (`closing`). It
//! speaks of sheets, files, calls and answers only; the code's contracts are stated with the same definitions.
#![tactic(auto)]

ghost use Rattle.promise.specs.Promise.{Promise};

// A call that does nothing, so that the promise stands on a contract.
pub fn stands()
    ensures { Promise }
{}
