//! Each input has an answer: what texts say, what a weld leaves, what is wrong with a part or that it is sound, the sheet of a job and a
//! part or that there is none; and so has a run of `draw` or of `sheet`, for all words and files. So what a run is promised to answer isn't empty.
//! That there is one answer at most is shown in `answers_unique`.
//!
//! Lemmas alone: they stand in `proofs/`, and what they speak of in `specs/` of the crates below. Each step is decided: numbers byte by
//! byte, fans, welds, faults and scales by search over finitely many things, whether an edge meets a triangle by determinants.
#![tactic(auto)]
