//! Which paths of a sheet are drawn, without hidden ones that lie within the ink of others.
//!
//! A hidden path is left out if each of its legs, the straight lines between its points, lies within a distance of the legs of one other
//! path that is drawn. A leg is split at the foot on it of each end of a near leg of the other path, and where the perpendicular to that leg
//! at this end meets it. Between two places of a split both ends must be within the distance of one leg, and then so is each point between.
#![tactic(auto)]

mod covering;
mod drawn;
mod extent;
mod legs;
mod line;
mod lines;
mod numbers;
mod sheets;
mod splits;
#[cfg(test)]
mod tests;
mod within;

pub use sheets::drawn_paths;
