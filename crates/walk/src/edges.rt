// The two end points of an edge with its ring, on any tables (document 01, item 1, refusal 15).
ghost use Rattle.walk.specs.Edges.{RingSays, EdgeSays, EdgeIn};

use crate::LentPlan;
use boxes::{next_corner, ring_near, ring_of};
use geom::Point;
use plans::corner_at;
use rules::Unsound;

/// An edge by its number.
#[derive(Clone, Copy)]
pub struct Edge {
    /// The number of its ring.
    pub ring: usize,
    /// The corner at which it starts.
    pub from: Point,
    /// The corner at which it ends.
    pub to: Point,
}

// The ring of corner e among the first `count`, where ring `near` is tried first if there is one. Any number may be the guess: it is tested
// before it is used, so that it needs no `Option`.
fn ring_at(rings: &[usize], count: usize, e: usize, near: usize) -> Result<usize, Unsound>
    ensures { RingSays rings.now count e result }
{
    if count == 0 || rings.len() < count || rings[count - 1] <= e {
        return Err(Unsound);
    }
    if near < count {
        return Ok(ring_near(rings, count, e, near));
    }
    Ok(ring_of(rings, count, e))
}

// Edge e of the n edges of `count` rings: its ring and its two end points, with ring `near` tried first. It takes its tables one by one: in the
// struct it reads each of them again from memory, or the loop over edges holds it whole, and look-ups take up to a tenth longer.
fn edge_in(
    corners: &[i64],
    rings: &[usize],
    n: usize,
    count: usize,
    e: usize,
    near: usize,
) -> Result<Edge, Unsound>
    ensures { EdgeSays corners.now rings.now n count e result }
{
    if n <= e || corners.len() / 2 < n {
        return Err(Unsound);
    }
    let ring = ring_at(rings, count, e, near)?;
    let next = next_corner(rings, ring, e);
    if n <= next {
        return Err(Unsound);
    }
    Ok(Edge {
        ring,
        from: corner_at(corners, e),
        to: corner_at(corners, next),
    })
}

/// Edge e: its ring and its two end points. Ring `near` is tried first, whatever its number: edges that stand together are mostly of one
/// ring.
///
/// Refused with 15 (`Unsound`) where there is no edge e, a table is shorter than the state says, or the ring ends lead outside the
/// corners: never for an edge of sound tables.
#[inline(always)]
pub fn edge_at(plan: &LentPlan<'_>, e: usize, near: usize) -> Result<Edge, Unsound>
    ensures { EdgeIn plan.now e result }
{
    edge_in(plan.corners, plan.rings, plan.n, plan.count, e, near)
}
