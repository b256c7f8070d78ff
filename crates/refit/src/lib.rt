// The path from the root of the index to a place of the edge list, and the boxes on it made anew when a corner has moved (document 01,
// item 9, "The correction book", refusal 15). Whatever a refit reads is found and tested first, so that it never stops half way.
#![tactic(auto)]

ghost use Rattle.std.specs.Prelude.{◌≡◌, ◌+◌, ◌-◌, ◌*◌, ◌<◌, ◌≤◌, length, get_or, set};
ghost use Rattle.rules.specs.Nodes.{node_count};
ghost use Rattle.boxes.specs.Boxes.{row_of};
ghost use Rattle.index.specs.Build.{KeptFrom};
ghost use Rattle.index.specs.Parts.{first_at, count_at, child_at};
ghost use Rattle.refit.specs.Paths.{Whether, StepSays, PathSays, StopsSay, Lent, Spans, Fine, WaySays};
ghost use Rattle.refit.specs.Refits.{span_of, leaf_box, cut_box, leaf_fitted, Refit};

use boxes::{next_corner, put_rect, rect_at, ring_near};
use geom::Rect;
use index::build::LEAF;
use index::count::node_count;
use index::parts::part_at;
use plans::corner_at;
use rules::Unsound;

/// The most nodes from the root of a sound index down to a leaf, and the least length of the path that `find_way` is lent.
pub const DEPTH: usize = 18;

// From node p towards place k: the child on whose side the place lies, or `None` at a leaf. Refused with 15 (`Unsound`) where a number that
// the node names is outside its table.
fn step_to(
    parts: &[[usize; 3]],
    n: usize,
    nodes: usize,
    k: usize,
    p: usize,
) -> Result<Option<usize>, Unsound>
    requires { (nodes ≤ length parts.now) × (k < n) }
    ensures { StepSays parts.now n nodes k p result }
{
    let part = part_at(parts, n, nodes, p)?;
    if k < part.first {
        return Err(Unsound);
    }
    let Some(left) = part.left_child(nodes)? else {
        return Ok(None);
    };
    if k - part.first < part.count / 2 {
        return Ok(Some(left));
    }
    Ok(Some(left + 1))
}

// The nodes on whose side place k lies, the root first: on sound tables those whose parts hold it. Gives how many there are. Only the path
// is written.
fn path_to(
    path: &mut [usize],
    parts: &[[usize; 3]],
    n: usize,
    nodes: usize,
    k: usize,
) -> Result<usize, Unsound>
    requires in_bounds { (18 ≤ length path.old) × (nodes ≤ length parts.now) }
    requires index_place { (nodes ≡ node_count n) × (k < n) }
    ensures path_says { PathSays n parts.now nodes k path.new result }
    ensures kept_from { KeptFrom 18 path.old path.new }
{
    path[0] = 0;
    let mut depth = 1;
    let mut p = 0;
    while let Some(child) = step_to(parts, n, nodes, k, p)? {
        if DEPTH <= depth {
            return Err(Unsound);
        }
        path[depth] = child;
        depth += 1;
        p = child;
    }
    Ok(depth)
}

// The corners at which the edges at the `size` places from `first` on end, one after another, each edge and each corner tested. Only
// `stops` is written.
fn put_stops(
    stops: &mut [usize],
    rings: &[usize],
    edges: &[usize],
    n: usize,
    count: usize,
    first: usize,
    size: usize,
) -> Result<(), Unsound>
    requires last_ring_ends { (0 < count) × (count ≤ length rings.now) × (get_or rings.now (count - 1) 0 ≡ n) }
    requires size_in_bounds { (first + size ≤ length edges.now) × (size ≤ length stops.old) }
    ensures stops_say { StopsSay n count rings.now edges.now first size stops.new result }
    ensures kept_from { KeptFrom size stops.old stops.new }
{
    let mut ring = 0;
    for j in 0..size {
        let e = edges[first + j];
        if n <= e {
            return Err(Unsound);
        }
        ring = ring_near(rings, count, e, ring);
        let stop = next_corner(rings, ring, e);
        if n <= stop {
            return Err(Unsound);
        }
        stops[j] = stop;
    }
    Ok(())
}

// Whether path and stops have room for so many, no table is shorter than the state says, the last ring ends at the last corner, and
// the edge list has a place k.
fn lent_enough(
    path: usize,
    stops: usize,
    rings: &[usize],
    parts: &[[usize; 3]],
    edges: &[usize],
    n: usize,
    count: usize,
    k: usize,
) -> bool
    ensures { Whether (Lent n count k path stops rings.now (length parts.now) (length edges.now)) result }
{
    DEPTH <= path
        && LEAF <= stops
        && node_count(n) <= parts.len()
        && n <= edges.len()
        && k < n
        && 0 < count
        && count <= rings.len()
        && rings[count - 1] == n
}

/// The way to place k of the edge list: the nodes on the way down to it, root first, and the corners at which the edges of the last of
/// them, a leaf, end. Gives how many nodes the path has. On sound tables the nodes are just those whose parts hold the place, on others
/// those on whose side it lies. Nothing but `path` and `stops` is written.
///
/// Refused with 15 (`Unsound`) where a number leads outside its table, the path would have more than 18 nodes, there is no place k, the
/// last ring does not end at the last corner, or a table is too short: never on sound tables that have a place k, if there is room. A
/// `path` of less than 18 nodes or `stops` of less than 8 corners get 15 on sound tables too. Both are the caller's working space: at most
/// the first 18 and the first 8 numbers of them change, and none where a table or one of the two is too short.
pub fn find_way(
    path: &mut [usize],
    stops: &mut [usize],
    rings: &[usize],
    parts: &[[usize; 3]],
    edges: &[usize],
    n: usize,
    count: usize,
    k: usize,
) -> Result<usize, Unsound>
    ensures { WaySays n count rings.now parts.now edges.now k path.old stops.old path.new stops.new result }
{
    if !lent_enough(path.len(), stops.len(), rings, parts, edges, n, count, k) {
        return Err(Unsound);
    }
    let depth = path_to(path, parts, n, node_count(n), k)?;
    let [first, size, _] = parts[path[depth - 1]];
    put_stops(stops, rings, edges, n, count, first, size)?;
    Ok(depth)
}

// The box of two corners.
fn span(corners: &[i64], a: usize, b: usize) -> Rect
    requires { (2 * a + 1 < length corners.now) × (2 * b + 1 < length corners.now) }
    ensures { result ≡ span_of corners.now a b }
{
    Rect::new(corner_at(corners, a), corner_at(corners, b))
}

// The smallest box round the edges at the `size` places from `first` on, which end at the corners in `stops`. `boxes::part_box` finds the
// corners in the ring table, but asks that its ends rise, which only a pass over all of them would show.
fn leaf_box(
    corners: &[i64],
    edges: &[usize],
    stops: &[usize],
    n: usize,
    first: usize,
    size: usize,
) -> Rect
    requires n_in_bounds { 2 * n ≤ length corners.now }
    requires spans { Spans n edges.now stops.now first size }
    ensures { result ≡ leaf_box corners.now edges.now stops.now first size }
{
    if size == 0 {
        return Rect::empty();
    }
    let mut b = span(corners, edges[first], stops[0]);
    for j in 1..size {
        b = b.union(span(corners, edges[first + j], stops[j]));
    }
    b
}

// Gives a leaf the smallest box round its edges.
fn fit_leaf(
    corners: &[i64],
    boxes: &mut [[i64; 4]],
    parts: &[[usize; 3]],
    edges: &[usize],
    stops: &[usize],
    n: usize,
    leaf: usize,
)
    requires n_in_bounds { 2 * n ≤ length corners.now }
    requires leaf_in_bounds { (leaf < length parts.now) × (leaf < length boxes.old) }
    requires spans { Spans n edges.now stops.now (first_at parts.now leaf) (count_at parts.now leaf) }
    ensures { boxes.new ≡ leaf_fitted corners.now boxes.old parts.now edges.now stops.now leaf }
{
    let [first, size, _] = parts[leaf];
    let b = leaf_box(corners, edges, stops, n, first, size);
    put_rect(boxes, leaf, b);
}

// Gives a cut node the union of its children's boxes.
fn fit_cut(boxes: &mut [[i64; 4]], parts: &[[usize; 3]], p: usize)
    requires { (p < length parts.now) × (p < length boxes.old) × (child_at parts.now p + 1 < length boxes.old) }
    ensures { boxes.new ≡ set boxes.old p (row_of (cut_box boxes.old parts.now p)) }
{
    let child = parts[p][2];
    let left = rect_at(boxes, child);
    let right = rect_at(boxes, child + 1);
    put_rect(boxes, p, left.union(right));
}

/// Makes the boxes on a path anew, the leaf's round its edges first, then each node's above it round its children's, the root's last, so
/// that boxes narrow as well as widen: on a path that `find_way` found in an index that was sound, each is the smallest again where the
/// boxes off the path are. No other box is written, and nothing is refused: `find_way` has tested all that is read, but for the lengths
/// of `corners` and `boxes`.
pub fn refit(
    corners: &[i64],
    boxes: &mut [[i64; 4]],
    parts: &[[usize; 3]],
    edges: &[usize],
    path: &[usize],
    stops: &[usize],
    n: usize,
    depth: usize,
)
    requires n_in_bounds { (2 * n ≤ length corners.now) × (node_count n ≤ length boxes.old) }
    requires fine { Fine n parts.now edges.now path.now stops.now depth }
    ensures { Refit n corners.now boxes.old parts.now edges.now path.now stops.now depth boxes.new }
{
    let above = depth - 1;
    fit_leaf(corners, boxes, parts, edges, stops, n, path[above]);
    for k in (0..above).rev() {
        fit_cut(boxes, parts, path[k]);
    }
}
