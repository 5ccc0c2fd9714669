//! Lemmas on whole numbers, which the crates above cite in their proofs: equations between polynomials, signs, orders,
//! sizes, floors, and the numbers below a bound that pass a test.
#![tactic(auto)]
