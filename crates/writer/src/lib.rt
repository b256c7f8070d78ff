// A list plan written as Well-Known Text (document 02, R-1).
#![tactic(auto)]

ghost use Rattle.std.specs.Prelude.{◌≡◌, ◌+◌, ◌*◌, ◌^◌, ◌≤◌, ◌<◌, ◌++◌, length};
ghost use Rattle.fields.specs.Written.{Wrote};
ghost use Rattle.rules.specs.Lists.{total};
ghost use Rattle.rules.specs.Plans.{corners_of};
ghost use Rattle.grammar.specs.Texts.{pair_text, ring_text, polygon_text, closed, wkt_of};
ghost use Rattle.writer.specs.Drawn.{lead, leads, Rings, closed_rings, closed_polygons, Drawn};

use fields::write::{put, put_decimal};
use geom::Point;
use plans::{Plan, corner_at};

pub mod lengths;

// Writes a position.
fn put_pair(output: &mut [u8], at: usize, p: Point) -> usize
    requires { at + length (pair_text p) ≤ length output.old }
    ensures { Wrote at (pair_text p) output.old output.new result }
{
    let space = put_decimal(output, at, p.x);
    let next = put(output, space, b" ");
    put_decimal(output, next, p.y)
}

// Writes what stands before item i of a list: a bracket before the first, a comma and a space before each other.
fn put_lead(output: &mut [u8], at: usize, i: usize) -> usize
    requires { at + length (lead i) ≤ length output.old }
    ensures { Wrote at (lead i) output.old output.new result }
{
    if i == 0 {
        return put(output, at, b"(");
    }
    put(output, at, b", ")
}

// Writes position i of a ring, with what stands before it.
fn put_next(output: &mut [u8], at: usize, i: usize, p: Point) -> usize
    requires { at + length (lead i ++ pair_text p) ≤ length output.old }
    ensures { Wrote at (lead i ++ pair_text p) output.old output.new result }
{
    let next = put_lead(output, at, i);
    put_pair(output, next, p)
}

// Writes a ring's corners, with what stands before each.
fn put_corners(output: &mut [u8], at: usize, ring: &[i64]) -> usize
    requires { at + length (leads pair_text 0 (corners_of ring.now)) ≤ length output.old }
    ensures { Wrote at (leads pair_text 0 (corners_of ring.now)) output.old output.new result }
{
    let mut place = at;
    for i in 0..ring.len() / 2 {
        place = put_next(output, place, i, corner_at(ring, i));
    }
    place
}

// Writes a ring, its first corner repeated at its end.
fn put_ring(output: &mut [u8], at: usize, ring: &[i64]) -> usize
    requires { (1 < length ring.now) × (at + length (ring_text (closed (corners_of ring.now))) ≤ length output.old) }
    ensures { Wrote at (ring_text (closed (corners_of ring.now))) output.old output.new result }
{
    let open = put_corners(output, at, ring);
    let again = put_next(output, open, 1, corner_at(ring, 0));
    put(output, again, b")")
}

// Writes a polygon: rings of these lengths, from the first corner on.
fn put_polygon(output: &mut [u8], at: usize, coordinates: &[i64], lengths: &[usize]) -> usize
    requires { Rings coordinates.now lengths.now × (0 < length lengths.now) × (at + length (polygon_text (closed_rings coordinates.now lengths.now)) ≤ length output.old) }
    ensures { Wrote at (polygon_text (closed_rings coordinates.now lengths.now)) output.old output.new result }
{
    let mut place = at;
    let mut first = 0;
    for (i, &corners) in lengths.iter().enumerate() {
        let end = first + corners;
        let next = put_lead(output, place, i);
        place = put_ring(output, next, &coordinates[2 * first..2 * end]);
        first = end;
    }
    put(output, place, b")")
}

// How many corners rings of these lengths have.
fn corner_count(lengths: &[usize]) -> usize
    requires { total lengths.now < 2 ^ 64 }
    ensures { result ≡ total lengths.now }
{
    lengths.iter().sum()
}

// Writes the polygons of a list that has one at least.
fn put_polygons(output: &mut [u8], at: usize, plan: &Plan<'_>) -> usize
    requires { Drawn plan.now × (at + length (leads polygon_text 0 (closed_polygons plan.now)) ≤ length output.old) }
    ensures { Wrote at (leads polygon_text 0 (closed_polygons plan.now)) output.old output.new result }
{
    let mut place = at;
    let mut first = 0;
    let mut ring = 0;
    for (i, &count) in plan.counts.iter().enumerate() {
        let end = ring + count;
        let rings = &plan.lengths[ring..end];
        let next = put_lead(output, place, i);
        place = put_polygon(output, next, &plan.coordinates[2 * first..], rings);
        first += corner_count(rings);
        ring = end;
    }
    place
}

/// Writes a plan into the output from its start, and gives how many bytes it wrote. The plan is a list that is accepted and has no empty
/// ring, and the output has room.
pub fn put_text(output: &mut [u8], plan: &Plan<'_>) -> usize
    requires { Drawn plan.now × (length (wkt_of plan.now) ≤ length output.old) }
    ensures { Wrote 0 (wkt_of plan.now) output.old output.new result }
{
    if plan.counts.is_empty() {
        return put(output, 0, b"MULTIPOLYGON EMPTY");
    }
    let start = put(output, 0, b"MULTIPOLYGON ");
    let end = put_polygons(output, start, plan);
    put(output, end, b")")
}
