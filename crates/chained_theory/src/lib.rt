//! The chained store's layout: heads, records and chains, and what the bytes mean.
//!
//! `specs/Layout` is the layout and `specs/Links` what holds of the chains between calls; the lemmas say what a record
//! pushed, written over or forgotten makes of them. Code stands in the crate `chained`.
#![tactic(auto)]
