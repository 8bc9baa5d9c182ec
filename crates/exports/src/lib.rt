// The calls for C and Rust programs, under C names: include/likhmout.h. `rt staticlib exports` writes the archive that they link.
// A call of the allocator is lent the record, changes it in place, and returns the answer; a question is lent it to read. Each range or
// frame call returns document 01's number and writes the rest of its answer to `out`, whole, refused calls included. C sees a lent slice
// as a pointer and its number of words, and no enum: a kind is a word, 0 for general and any other number for reserved.
#![tactic(auto)]

pub mod allocations;
pub mod boots;
pub mod deallocations;
pub mod questions;
pub mod ranges;
pub mod records;
pub mod rules_check;
pub mod runs;
pub mod sorts;
