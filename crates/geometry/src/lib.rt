//! The definitions that the contracts above speak in: what a part is, what a view of it shows, and the two counts along an edge and
//! around its corners. They stand in `specs/`; the one call is a theorem on them.
#![tactic(auto)]

ghost use Rattle.geometry.specs.Exceptions.{HasEdges, IsOrdinaryInPlain, IsOrdinaryWithTraces, IsOrdinaryWithBorders};

/// What is said of ordinary points is said of all points of a view but few, for each part, closed or not, each direction and each cut:
/// only what is seen at a corner, at an end of a trace or of a border, or where two of edges, traces and borders cross isn't ordinary,
/// and that is on no more lines of sight than there are corners, such ends and pairs. The call does nothing.
pub fn ordinary_but_few()
    ensures edges { HasEdges }
    ensures plain { IsOrdinaryInPlain }
    ensures traces { IsOrdinaryWithTraces }
    ensures borders { IsOrdinaryWithBorders }
{}
