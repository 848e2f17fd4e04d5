//! Numberings: closings, places and leaves are counted apart, each by a number of its own type.
//!
//! A leaf number is never taken for a place, nor a place for a closing. A new numbering is a new struct here. No other
//! crate of the library is known in this one.
#![tactic(auto)]

// The number of a closing, 1 to 9,999 where it is a store's.
#[derive(Clone, Copy, Debug, PartialEq, Eq, PartialOrd, Ord, Default)]
pub struct Closing(pub u32);

// A place of a tree: 1 is the root, and the children of i are 2i and 2i + 1.
#[derive(Clone, Copy, Debug, PartialEq, Eq, PartialOrd, Ord, Default)]
pub struct Place(pub u32);

// The number of a leaf, from 0.
#[derive(Clone, Copy, Debug, PartialEq, Eq, PartialOrd, Ord, Default)]
pub struct Leaf(pub u32);

// What a record of a store is kept under.
#[derive(Clone, Copy, Debug, PartialEq, Eq, PartialOrd, Ord, Default)]
pub struct Key {
    pub closing: Closing,
    pub place: Place,
}
