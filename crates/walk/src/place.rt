// The place of an edge in the edge list (document 01, item 9, refusal 15; "The correction book": a node's edges are those in its part
// of the edge list).
ghost use Rattle.walk.specs.Places.{WalkedIn, PlaceIn};

use crate::edges::edge_at;
use crate::{LentPlan, Query, STACK, next, start};
use geom::Rect;
use rules::Unsound;

// The place of edge e, found by a walk that enters only boxes that hold `wanted`, the box of the edge.
fn walk_to(plan: &LentPlan<'_>, wanted: Rect, e: usize) -> Result<usize, Unsound>
    ensures { WalkedIn plan.now wanted e result }
{
    let query = Query::Holding(wanted);
    let mut stack: [usize; STACK] = [0; STACK];
    let mut cursor = start(plan.n);
    while let Some(step) = next(&mut stack, plan, query, cursor)? {
        if step.edge == e {
            return Ok(step.after.at - 1);
        }
        cursor = step.after;
    }
    Err(Unsound)
}

/// The place of edge e in the edge list, found by a walk that enters only the boxes that hold the edge. No table is written.
///
/// On any tables edge e stands at the place returned. Refused with 15 (`Unsound`) where there is no edge e, a number leads outside its
/// table, a table is shorter than the state says, or the walk ends without the edge: never for an edge of sound tables.
pub fn place_of_edge(plan: &LentPlan<'_>, e: usize) -> Result<usize, Unsound>
    ensures { PlaceIn plan.now e result }
{
    let edge = edge_at(plan, e, 0)?;
    walk_to(plan, Rect::new(edge.from, edge.to), e)
}
