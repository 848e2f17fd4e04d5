//! Parts of a memory: a stretch of bytes, a stretch written over, and numbers of four bytes.
//!
//! Definitions and their laws only: what is written reads back, and the rest stays. The stores' layouts rest on them; the
//! code that reads and writes stands with each store.
#![tactic(auto)]
