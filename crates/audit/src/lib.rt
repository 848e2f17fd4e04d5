//! The theory of the audit: what an auditor answers since a sheet was laid, and what these answers promise.
//!
//! No code runs here. Each function stands for a theorem over every kind of amount, every digest, every two stores and every
//! list of calls.
#![tactic(auto)]

ghost use Rattle.audit.specs.Promise.{AuditPromise, HonestAudit};

// The tally stays under the total, nobody who passes is left out, and shown texts are a collision.
pub fn audit_holds()
    ensures { AuditPromise }
{}

// Files of one ledger never show two texts, and all of them together reach its total.
pub fn honest_audits_hold()
    ensures { HonestAudit }
{}
