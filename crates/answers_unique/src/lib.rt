//! Each input has one answer: what texts say, what a weld leaves, what is wrong with a part, and which sheet it has; and the weld of a
//! sound part is sound. Lemmas alone: they stand in `proofs/`, and what they speak of in `specs/` of the crates below.
#![tactic(auto)]
