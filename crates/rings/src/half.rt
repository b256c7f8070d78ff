// Corners of the half-grid (document 01, item 7).
ghost use Rattle.std.specs.Prelude.{◌≡◌};
ghost use Rattle.rings.specs.Half.{near_doubled};

use geom::Point;

/// Twice a corner in range. Any other is left as it is: sound tables have none, and no plan with such a corner has a reply that rests on it.
pub fn doubled_corner(corner: Point) -> Point
    ensures { result ≡ near_doubled corner }
{
    if corner.in_range() {
        return Point {
            x: corner.x + corner.x,
            y: corner.y + corner.y,
        };
    }
    corner
}
