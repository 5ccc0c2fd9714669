//! How the counts of nearer faces, and of the section, change along an edge of a cut view. Lemmas alone: they stand in `proofs/`,
//! and what they speak of in `specs/`.
#![tactic(auto)]
