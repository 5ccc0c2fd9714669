//! Laws on drawings, lemmas alone: they stand in `proofs/`, and what they speak of in `specs/` and in those of the crates below.
//!
//! A right drawing is one only: two lists of pieces that are right for one view, and in order, are drawn alike (`OneView`). All points
//! of a view but those on few lines of sight are ordinary (`EachPart`). What a view draws stands in its box on the sheet (`OnPaper`).
#![tactic(auto)]
