// How an edge counts for a point along each of the four rays (document 01, items 3 and 6).
ghost use Rattle.std.specs.Prelude.{◌≡◌, not};
ghost use Rattle.integers.specs.Signs.{sign_of};
ghost use Rattle.predicates.specs.Turn.{orientation};
ghost use Rattle.rays.specs.Along.{no_higher, is_beyond, left_if, crossing_along};

use geom::Point;
use integers::Sign;
use predicates::{on_segment, orient};
use rings::crossings::{Crossing, downward, upward};
use rules::Ray;

// Whether a corner is no higher than the point, seen so that the ray points right.
fn no_higher(ray: Ray, corner: Point, p: Point) -> bool
    ensures { result ≡ no_higher ray corner p }
{
    match ray {
        Ray::Right => corner.y <= p.y,
        Ray::Left => p.y <= corner.y,
        Ray::Up => p.x <= corner.x,
        Ray::Down => corner.x <= p.x,
    }
}

// Whether a point is farther along the ray than another.
fn beyond(ray: Ray, a: Point, b: Point) -> bool
    ensures { result ≡ is_beyond ray a b }
{
    match ray {
        Ray::Right => b.x < a.x,
        Ray::Left => a.x < b.x,
        Ray::Up => b.y < a.y,
        Ray::Down => a.y < b.y,
    }
}

// A turn to the left where the flag is set, else to the right: `Sign::from(flag)` would not say which side the flag means.
fn left_if(flag: bool) -> Sign
    ensures { result ≡ left_if flag }
{
    if flag { Sign::Positive } else { Sign::Negative }
}

// The turn from the edge to the point, where one end of the edge is higher than the point and the other is not: `rises` says that it is
// the second. Only an edge that reaches across the point along the ray needs the turn itself.
fn passing_turn(ray: Ray, rises: bool, a: Point, b: Point, p: Point) -> Sign
    requires { (no_higher ray a p ≡ rises) × (no_higher ray b p ≡ not rises) }
    ensures { result ≡ sign_of (orientation a b p) }
{
    if beyond(ray, a, p) & beyond(ray, b, p) {
        return left_if(rises);
    }
    if beyond(ray, p, a) & beyond(ray, p, b) {
        return left_if(!rises);
    }
    orient(a, b, p)
}

/// How the edge from a to b counts for p along the ray. Turning the plane keeps the turn of three points, so only the heights are
/// turned, and no coordinate is negated: any points will do.
// One generic function under this and `rings::crossings::crossing_of` was proved, and look-ups took 1 to 3 hundredths more, some 7.
pub fn crossing_along(ray: Ray, a: Point, b: Point, p: Point) -> Crossing
    ensures { result ≡ crossing_along ray a b p }
{
    if no_higher(ray, a, p) {
        if no_higher(ray, b, p) {
            if on_segment(a, b, p) {
                return Crossing::On;
            }
            return Crossing::Nothing;
        }
        return upward(passing_turn(ray, true, a, b, p));
    }
    if no_higher(ray, b, p) {
        return downward(passing_turn(ray, false, a, b, p));
    }
    Crossing::Nothing
}
