// Even-odd over all rings: a tree on the grid, and every plan on the half-grid (document 01, items 4 and 7), over a ring table of either form.
ghost use Rattle.std.specs.Prelude.{◌≡◌, ◌/◌, length};
ghost use Rattle.rules.specs.Plans.{corners_of};
ghost use Rattle.outlines.specs.Rows.{parts_from};
ghost use Rattle.outlines.specs.Shapes.{Shown, turns_over, parity_place};

use crate::rows::{Form, end_of};
use geom::Point;
use rings::places::odd_place;
use rings::ring::ring_winding;
use rules::{Location, Reply};

// Whether a ring with this winding number turns the parity over: on the grid where it goes round the point, on the half-grid where an odd
// number of its edges is crossed, which is where the winding number is odd.
fn turns_over<const DOUBLED: bool>(winding: i64) -> bool
    ensures { result ≡ turns_over DOUBLED winding }
{
    if DOUBLED {
        winding.unsigned_abs() % 2 == 1
    } else {
        winding != 0
    }
}

/// Where p lies by even-odd: on the boundary of any ring, or else inside exactly if an odd number of rings go round it or, on the half-grid, an
/// odd number of edges is crossed.
pub fn parity_reply<const DOUBLED: bool>(
    form: Form,
    coordinates: &[i64],
    rings: &[usize],
    p: Point,
) -> Reply
    ensures { Shown form (length coordinates.now / 2) 0 rings.now (parity_place DOUBLED (parts_from form (corners_of coordinates.now) 0 rings.now) p) result }
{
    let limit = coordinates.len() / 2;
    let mut odd = false;
    let mut at = 0;
    for &entry in rings {
        let end = end_of(form, entry, at, limit)?;
        let Some(winding) = ring_winding::<DOUBLED>(coordinates, at, end, p) else {
            return Ok(Location::OnBoundary);
        };
        odd = odd != turns_over::<DOUBLED>(winding);
        at = end;
    }
    Ok(odd_place(odd))
}
