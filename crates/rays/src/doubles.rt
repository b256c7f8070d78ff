// Boxes doubled, as the half-grid wants them (document 01, item 7).
ghost use Rattle.std.specs.Prelude.{◌≡◌};
ghost use Rattle.rays.specs.Doubles.{near_doubled_rect};

use geom::Rect;
use rings::half::doubled_corner;

/// A box with both its corners doubled.
pub fn doubled_rect(r: Rect) -> Rect
    ensures { result ≡ near_doubled_rect r }
{
    Rect {
        min: doubled_corner(r.min),
        max: doubled_corner(r.max),
    }
}
