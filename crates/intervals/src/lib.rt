//! Intervals of an ordered type: their union, and what some of them leave of others.
//!
//! Both calls answer which places are within intervals, and a place needs no value of the type: the contracts name it
//! by a cut, a test that is true before it. So no end is an exception.
#![tactic(auto)]

mod interval;
mod order;
mod remainders;
mod unions;

pub use interval::Interval;
pub use remainders::rest;
pub use unions::united;
