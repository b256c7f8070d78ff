// A corner's two edges, the one that starts there and the one that ends there: where they stand in the edge list
// (document 01, "The correction book", refusal 15). The tables are only read.
ghost use Rattle.placing.specs.Ways.{PlacesSay};

use boxes::previous_corner;
use rules::Unsound;
use walk::LentPlan;
use walk::edges::edge_at;
use walk::place::place_of_edge;

/// Where a corner's two edges stand in the edge list.
#[derive(Clone, Copy)]
pub(crate) struct Places {
    /// The place of the edge that starts there.
    pub after: usize,
    /// The place of the edge that ends there.
    pub before: usize,
}

/// The places of corner i's two edges in the edge list.
pub(crate) fn places_of(
    corners: &[i64],
    rings: &[usize],
    boxes: &[[i64; 4]],
    parts: &[[usize; 3]],
    edges: &[usize],
    n: usize,
    count: usize,
    i: usize,
) -> Result<Places, Unsound>
    ensures { PlacesSay n count corners.now rings.now boxes.now parts.now edges.now i result }
{
    let plan = LentPlan {
        corners,
        rings,
        boxes,
        parts,
        edges,
        n,
        count,
    };
    let edge = edge_at(&plan, i, 0)?;
    let previous = previous_corner(rings, edge.ring, i);
    let after = place_of_edge(&plan, i)?;
    let before = place_of_edge(&plan, previous)?;
    Ok(Places { after, before })
}
