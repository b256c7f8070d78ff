// Once round one ring, on either grid (document 01, items 3 and 7).
ghost use Rattle.std.specs.Prelude.{◌≡◌, ◌+◌, ◌*◌, ◌≤◌, ◌<◌, ◌^◌, map, nat_abs, length};
ghost use Rattle.rules.specs.Plans.{corners_of, corner_at};
ghost use Rattle.rules.specs.Replies.{ring_reply};
ghost use Rattle.rings.specs.Crossings.{crossing_of, with_edge, place_by, ring_winding};
ghost use Rattle.rings.specs.Half.{corner_on};
ghost use Rattle.rings.specs.Parts.{part};

use crate::crossings::{Crossing, crossing_of, inlined_crossing, wound};
use crate::half::doubled_corner;
use geom::Point;
use plans::corner_at;
use rules::Location;

/// The winding number with one more edge: `None` where the point is on it.
pub fn with_edge(winding: i64, crossing: Crossing) -> Option<i64>
    requires { nat_abs winding + 1 < 2 ^ 63 }
    ensures { result ≡ with_edge winding crossing }
{
    if crossing == Crossing::On {
        return None;
    }
    Some(wound(winding, crossing))
}

/// The place by the winding number: `None` stands for a point on an edge.
pub fn place_by(winding: Option<i64>) -> Location
    ensures { result ≡ place_by winding }
{
    match winding {
        None => Location::OnBoundary,
        Some(0) => Location::Outside,
        Some(_) => Location::Inside,
    }
}

// Corner i, or twice it on the half-grid.
fn corner<const DOUBLED: bool>(coordinates: &[i64], i: usize) -> Point
    requires { 2 * i + 1 < length coordinates.now }
    ensures { result ≡ corner_on DOUBLED (corner_at coordinates.now i) }
{
    let corner = corner_at(coordinates, i);
    if DOUBLED {
        doubled_corner(corner)
    } else {
        corner
    }
}

// How the edge from a to b counts for p. On the half-grid a part of the loop in the machine's code: by a call the loop takes 1.5 to 2.1 of the
// time, since its corners then go through memory.
#[inline(always)]
fn crossing<const DOUBLED: bool>(a: Point, b: Point, p: Point) -> Crossing
    ensures { result ≡ crossing_of a b p }
{
    if DOUBLED {
        inlined_crossing(a, b, p)
    } else {
        crossing_of(a, b, p)
    }
}

/// The winding number round p of the ring of the corners from `first` to before `end`, which are doubled on the half-grid: `None` where p is
/// on an edge.
pub fn ring_winding<const DOUBLED: bool>(
    coordinates: &[i64],
    first: usize,
    end: usize,
    p: Point,
) -> Option<i64>
    requires { (first ≤ end) × (2 * end ≤ length coordinates.now) }
    ensures { result ≡ ring_winding (map (corner_on DOUBLED) (part (corners_of coordinates.now) first end)) p }
{
    if first == end {
        return Some(0);
    }
    let start = corner::<DOUBLED>(coordinates, first);
    let mut a = start;
    let mut winding: i64 = 0;
    for i in first + 1..end {
        let b = corner::<DOUBLED>(coordinates, i);
        winding = with_edge(winding, crossing::<DOUBLED>(a, b, p))?;
        a = b;
    }
    with_edge(winding, crossing::<DOUBLED>(a, start, p))
}

/// Where p lies in the ring of the corners from `first` to before `end`.
pub fn ring_reply(coordinates: &[i64], first: usize, end: usize, p: Point) -> Location
    requires { (first ≤ end) × (2 * end ≤ length coordinates.now) }
    ensures { result ≡ ring_reply (part (corners_of coordinates.now) first end) p }
{
    place_by(ring_winding::<false>(coordinates, first, end, p))
}
