//! Trials of the three indexes of ranges: the list, the tiles and the tree.
//!
//! The crate offers nothing. Its test fills each of them with the same ranges, takes half of them out, and asks for
//! those that overlap a range: all three answer what a person finds. What all answers are, the clauses of `RangeIndex`
//! say.
//!
//! Below are `sheet_refs`, `range_index` with the trait, the list and the tiles, and `tree_index`.
#![tactic(auto)]

#[cfg(test)]
mod filling;
#[cfg(test)]
mod prefix_tests;
