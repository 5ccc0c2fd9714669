//! Tests of the crates between a part and a view's pieces: edges that meet faces, solids, drawn edges, sections, crossings, counts,
//! grids, spans, hatching and merged lines. Expected values are worked by hand or come from another program, by the definitions.
#![tactic(auto)]

#[cfg(test)]
mod changes;
#[cfg(test)]
mod cut_counts;
#[cfg(test)]
mod cuts;
#[cfg(test)]
mod grids;
#[cfg(test)]
mod hatches;
#[cfg(test)]
mod meets;
#[cfg(test)]
mod merges;
#[cfg(test)]
mod picks;
#[cfg(test)]
mod shares;
#[cfg(test)]
mod solids;
#[cfg(test)]
mod spans;
