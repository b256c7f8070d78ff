// How an edge counts for a point (document 01, item 3).
ghost use Rattle.std.specs.Prelude.{◌≡◌, ◌+◌, ◌<◌, ◌^◌, nat_abs, ◌+ℤ◌};
ghost use Rattle.rings.specs.Crossings.{crossing_of, upward_of, downward_of, weight_of};

use geom::Point;
use integers::Sign;
use predicates::{on_segment, orient};

/// How an edge meets the ray to the right of a point. An edge that does not count is one of item 3's four outcomes: over `Option<Crossing>`
/// each `match` has the same four arms.
#[derive(Clone, Copy, PartialEq, Eq)]
pub enum Crossing {
    Nothing,
    Up,
    Down,
    On,
}

/// An edge that rises past the point's height, by the turn from it to the point.
pub fn upward(turn: Sign) -> Crossing
    ensures { result ≡ upward_of turn }
{
    match turn {
        Sign::Negative => Crossing::Nothing,
        Sign::Zero => Crossing::On,
        Sign::Positive => Crossing::Up,
    }
}

/// An edge that falls past the point's height, by the turn from it to the point.
pub fn downward(turn: Sign) -> Crossing
    ensures { result ≡ downward_of turn }
{
    match turn {
        Sign::Negative => Crossing::Down,
        Sign::Zero => Crossing::On,
        Sign::Positive => Crossing::Nothing,
    }
}

// How the edge from a to b counts for p. Most edges lie above or below the point and need no turn. A part of its caller in the machine's code.
#[inline(always)]
pub(crate) fn inlined_crossing(a: Point, b: Point, p: Point) -> Crossing
    ensures { result ≡ crossing_of a b p }
{
    if a.y <= p.y {
        if b.y <= p.y {
            if on_segment(a, b, p) {
                return Crossing::On;
            }
            return Crossing::Nothing;
        }
        return upward(orient(a, b, p));
    }
    if b.y <= p.y {
        return downward(orient(a, b, p));
    }
    Crossing::Nothing
}

/// How the edge from a to b counts for p. A function of its own in the machine's code: a part of the grid's loop it lets a jump hang on each
/// turn, and edges that all pass the point's height take 1.4 of the time.
#[inline(never)]
pub fn crossing_of(a: Point, b: Point, p: Point) -> Crossing
    ensures { result ≡ crossing_of a b p }
{
    inlined_crossing(a, b, p)
}

// What the edge adds to the winding number. Two tests are compiled to conditional moves, where one `match` of three outcomes would be
// compiled to a jump that no processor foresees.
fn weight_of(crossing: Crossing) -> i64
    ensures { result ≡ weight_of crossing }
{
    if crossing == Crossing::Up {
        return 1;
    }
    if crossing == Crossing::Down { -1 } else { 0 }
}

/// The winding number with one more edge. No plan has so many edges that it would leave 64 bits.
pub fn wound(winding: i64, crossing: Crossing) -> i64
    requires { nat_abs winding + 1 < 2 ^ 63 }
    ensures { result ≡ winding +ℤ weight_of crossing }
{
    winding + weight_of(crossing)
}
