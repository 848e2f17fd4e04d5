//! Closings: what a custodian answers to every list of calls, and what that gives a customer.
//!
//! Definitions and lemmas only. `specs/Closings` has the calls, their tables of refusals and what follows from each;
//! `specs/Holdings` what the stores hold; `specs/Standings` and `specs/Accounts` the laws over lists of calls, which stand on
//! the contract of a new custodian. The code is in `custodian`.
#![tactic(auto)]
