// Where a point lies in a polygon and in a list of polygons (document 01, item 4), over a ring table of either form.
ghost use Rattle.std.specs.Prelude.{◌*◌, ◌/◌, ◌≤◌, length};
ghost use Rattle.rules.specs.Plans.{corners_of};
ghost use Rattle.rules.specs.Replies.{holes_reply, polygon_reply};
ghost use Rattle.outlines.specs.Rows.{parts_from};
ghost use Rattle.outlines.specs.Shapes.{Shown, ListShown};

use crate::rows::{Form, end_of, end_of_all};
use geom::Point;
use plans::corner_at;
use rings::crossings::crossing_of;
use rings::places::{stronger, through_hole};
use rings::ring::{place_by, ring_reply, with_edge};
use rules::{Location, Reply};

// The holes in order: the first that the point is not outside of decides, and no later one is looked at. A hole decides at an edge that
// the point is on, or once all its edges are counted; either leaves both loops by the label.
fn holes_reply(form: Form, coordinates: &[i64], rings: &[usize], start: usize, p: Point) -> Reply
    requires { 2 * start ≤ length coordinates.now }
    ensures { Shown form (length coordinates.now / 2) start rings.now (holes_reply (parts_from form (corners_of coordinates.now) start rings.now) p) result }
{
    let limit = coordinates.len() / 2;
    let mut place = Location::Inside;
    let mut at = start;
    'holes: for &entry in rings {
        let end = end_of(form, entry, at, limit)?;
        if at == end {
            continue;
        }
        let first = corner_at(coordinates, at);
        let mut a = first;
        let mut winding: i64 = 0;
        for i in at + 1..end {
            let b = corner_at(coordinates, i);
            let Some(further) = with_edge(winding, crossing_of(a, b, p)) else {
                place = Location::OnBoundary;
                break 'holes;
            };
            winding = further;
            a = b;
        }
        place = through_hole(place_by(with_edge(winding, crossing_of(a, first, p))));
        if place != Location::Inside {
            break 'holes;
        }
        at = end;
    }
    Ok(place)
}

// Where p lies in a polygon: its outer ring and then its holes.
fn polygon_reply(form: Form, coordinates: &[i64], rings: &[usize], start: usize, p: Point) -> Reply
    requires { 2 * start ≤ length coordinates.now }
    ensures { Shown form (length coordinates.now / 2) start rings.now (polygon_reply (parts_from form (corners_of coordinates.now) start rings.now) p) result }
{
    let [outermost, holes @ ..] = rings else {
        return Ok(Location::Outside);
    };
    let end = end_of(form, *outermost, start, coordinates.len() / 2)?;
    let outer = ring_reply(coordinates, start, end, p);
    if outer != Location::Inside {
        return Ok(outer);
    }
    holes_reply(form, coordinates, holes, end, p)
}

/// Where p lies in a list of polygons: inside any of them wins, then boundary, then outside.
pub fn list_reply(
    form: Form,
    coordinates: &[i64],
    rings: &[usize],
    polygons: &[usize],
    p: Point,
) -> Reply
    ensures { ListShown form coordinates.now rings.now polygons.now p result }
{
    let limit = coordinates.len() / 2;
    let mut best = Location::Outside;
    let mut first = 0;
    let mut start = 0;
    for &entry in polygons {
        let last = end_of(form, entry, first, rings.len())?;
        let polygon = &rings[first..last];
        let place = polygon_reply(form, coordinates, polygon, start, p)?;
        let next = end_of_all(form, polygon, start, limit)?;
        best = stronger(best, place);
        if best == Location::Inside {
            return Ok(Location::Inside);
        }
        first = last;
        start = next;
    }
    Ok(best)
}
