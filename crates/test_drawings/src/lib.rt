//! Whole runs by calls: what a drawing has, and a plotter of the caller's own. There is no code here but tests; the runs that are
//! told by words and files stand in test_cases.
#![tactic(auto)]

#[cfg(test)]
mod costs;
#[cfg(test)]
mod cuts;
#[cfg(test)]
mod drawings;
#[cfg(test)]
mod plots;
#[cfg(test)]
mod runs;
