// A corner put at a place, with the boxes above its two edges made anew (document 01, item 9, "The correction book").
#![tactic(auto)]

ghost use Rattle.placing.specs.Places.{Placeable, Placed, CorrectionSays};

mod places;

use geom::Point;
use index::build::LEAF;
use places::places_of;
use plans::{corner_at, put_corner};
use refit::{DEPTH, find_way, refit};
use rules::Unsound;

// Puts corner i at a place, and makes anew the boxes on the paths to its two edges, one path after the other.
fn place_corner(
    corners: &mut [i64],
    boxes: &mut [[i64; 4]],
    parts: &[[usize; 3]],
    edges: &[usize],
    path: &[usize],
    stops: &[usize],
    other_path: &[usize],
    other_stops: &[usize],
    n: usize,
    depth: usize,
    other_depth: usize,
    i: usize,
    place: Point,
)
    requires { Placeable n i corners.old boxes.old parts.now edges.now path.now stops.now other_path.now other_stops.now depth other_depth }
    ensures { Placed i place corners.old boxes.old parts.now edges.now path.now stops.now other_path.now other_stops.now depth other_depth corners.new boxes.new }
{
    put_corner(corners, i, place);
    refit(corners, boxes, parts, edges, path, stops, n, depth);
    refit(
        corners,
        boxes,
        parts,
        edges,
        other_path,
        other_stops,
        n,
        other_depth,
    );
}

/// Puts corner i of n, in `count` rings, at a place, and gives the place where it stood before. All that can refuse is found and tested
/// before the first write: `Unsound` (15) leaves every table as it was, and comes on no sound tables that have a corner i.
pub fn correct(
    corners: &mut [i64],
    rings: &[usize],
    boxes: &mut [[i64; 4]],
    parts: &[[usize; 3]],
    edges: &[usize],
    n: usize,
    count: usize,
    i: usize,
    place: Point,
) -> Result<Point, Unsound>
    ensures { CorrectionSays n count rings.now parts.now edges.now i place corners.old boxes.old corners.new boxes.new result }
{
    let places = places_of(corners, rings, boxes, parts, edges, n, count, i)?;
    let mut path = [0; DEPTH];
    let mut stops = [0; LEAF];
    let mut other_path = [0; DEPTH];
    let mut other_stops = [0; LEAF];
    let depth = find_way(
        &mut path,
        &mut stops,
        rings,
        parts,
        edges,
        n,
        count,
        places.after,
    )?;
    let other_depth = find_way(
        &mut other_path,
        &mut other_stops,
        rings,
        parts,
        edges,
        n,
        count,
        places.before,
    )?;
    let old = corner_at(corners, i);
    place_corner(
        corners,
        boxes,
        parts,
        edges,
        &path,
        &stops,
        &other_path,
        &other_stops,
        n,
        depth,
        other_depth,
        i,
        place,
    );
    Ok(old)
}
