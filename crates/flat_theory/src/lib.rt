//! The flat store's layout: where each slot lies, and what the bytes mean.
//!
//! `specs/Layout` is the layout; the lemmas say what a slot written or a closing's marks cleared make of the meaning.
//! Code stands in the crate `flat`.
#![tactic(auto)]
