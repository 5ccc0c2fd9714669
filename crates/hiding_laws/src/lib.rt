//! What a face hides, by determinants, and how the counts change along an edge and around a corner. Lemmas alone: they stand in
//! `proofs/`, and what they speak of in `specs/`.
#![tactic(auto)]
