//! Sound parts: what is wrong with a part is told by its first fault, and a sound one has its edges numbered and tells for
//! each directed side which one goes back, and for each corner the triangles around it.
#![tactic(auto)]

mod beside;
mod bounds;
mod doubles;
mod edges;
mod fans;
mod faults;
mod flats;
mod pairs;
mod passing;
mod placed;
mod search;
mod sides;
mod signs;
mod solid;
mod spots;
mod stars;
mod subtrees;

pub use faults::{MeshError, MeshFault};
pub use pairs::{PairMeter, box_test, pair_test};
pub use solid::{Edge, Solid};
