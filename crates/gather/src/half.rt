// Where a doubled point lies among the edges of a prepared plan, on the half-grid (document 01, item 7; `locate_doubled` of
// src/prepared.rs): one walk along a ray, one parity over all edges of all rings, corners doubled.
ghost use Rattle.std.specs.Prelude.{◌≡◌, ◌≤◌, length};
ghost use Rattle.rules.specs.Plans.{rings_of};
ghost use Rattle.rules.specs.Replies.{half_reply};
ghost use Rattle.rings.specs.Half.{crossed_once};
ghost use Rattle.gather.specs.Lent.{plan_in, LookedIn};
ghost use Rattle.gather.specs.Halves.{CrossIn, LeafCrossedIn, ParityIn};

use crate::tables::Tables;
use boxes::rect_at;
use geom::Point;
use index::build::STACK;
use rays::along::crossing_along;
use rays::reach::half_rect;
use rings::crossings::Crossing;
use rings::half::doubled_corner;
use rings::places::odd_place;
use rules::{Location, Ray, Refusal, Reply, State, Unsound};
use walk::edges::edge_at;
use walk::{LentPlan, Query, next_leaf, past_leaf, start};

// What stands once an edge is counted, or the edges of a leaf: the parity with it, and the last edge's ring.
#[derive(Clone, Copy)]
pub(crate) struct Crossed {
    pub odd: bool,
    pub ring: usize,
}

// A parity with one more edge. No way through the code hangs on the edge, since no processor foresees how it counts.
fn turned_over(odd: bool, crossing: Crossing) -> bool
    ensures { result ≡ crossed_once odd crossing }
{
    odd != matches!(crossing, Crossing::Up | Crossing::Down)
}

// Counts edge e with its corners doubled: `None` where the point is on it.
fn cross(
    odd: bool,
    ray: Ray,
    plan: &LentPlan<'_>,
    e: usize,
    near: usize,
    p: Point,
) -> Result<Option<Crossed>, Unsound>
    ensures { CrossIn plan.now ray p odd e result }
{
    let edge = edge_at(plan, e, near)?;
    let crossing = crossing_along(ray, doubled_corner(edge.from), doubled_corner(edge.to), p);
    if crossing == Crossing::On {
        return Ok(None);
    }
    Ok(Some(Crossed {
        odd: turned_over(odd, crossing),
        ring: edge.ring,
    }))
}

// Counts the edges at the places from `at` up to `to` of the edge list, a leaf's: `None` where the point is on one of them.
fn cross_leaf(
    odd: bool,
    ray: Ray,
    plan: &LentPlan<'_>,
    at: usize,
    to: usize,
    near: usize,
    p: Point,
) -> Result<Option<Crossed>, Unsound>
    requires { (at ≤ to) × (to ≤ length plan.now.edges.now) }
    ensures { LeafCrossedIn plan.now ray p odd at to result }
{
    let mut here = Crossed { odd, ring: near };
    for k in at..to {
        let Some(further) = cross(here.odd, ray, plan, plan.edges[k], here.ring, p)? else {
            return Ok(None);
        };
        here = further;
    }
    Ok(Some(here))
}

// Walks from leaf to leaf and counts the edges of each: whether an odd number is crossed, or `None` where the point is on one.
fn parity_by(ray: Ray, query: Query, plan: &LentPlan<'_>, p: Point) -> Result<Option<bool>, Unsound>
    ensures { ParityIn plan.now ray p query result }
{
    let mut stack = [0usize; STACK];
    let mut cursor = start(plan.n);
    let mut here = Crossed {
        odd: false,
        ring: 0,
    };
    while let Some(leaf) = next_leaf(&mut stack, plan, query, cursor)? {
        let Some(further) = cross_leaf(here.odd, ray, plan, leaf.at, leaf.to, here.ring, p)? else {
            return Ok(None);
        };
        here = further;
        cursor = past_leaf(leaf);
    }
    Ok(Some(here.odd))
}

/// Where the doubled point p lies among the edges of a prepared plan, along any of the four rays: on sound tables the half-grid's reply,
/// the same for each ray. The range of p is not looked at.
///
/// On other tables some place, or 15 (`Unsound`): where a table is shorter than the state says or a walk leads outside a table.
pub fn half_along(ray: Ray, state: State, tables: &Tables<'_>, p: Point) -> Reply
    ensures { LookedIn state tables.now (half_reply (rings_of (plan_in state tables.now)) p) result }
{
    if !tables.are_enough(state) {
        return Err(Refusal::Unsound);
    }
    let query = Query::Meeting(half_rect(ray, rect_at(tables.boxes, 0), p));
    match parity_by(ray, query, &tables.lent(state), p)? {
        Some(odd) => Ok(odd_place(odd)),
        None => Ok(Location::OnBoundary),
    }
}
