// The ring of an edge, its two corners and its box, and the smallest box round a part of the edge list, over the lent tables of a
// prepared plan (document 01, items 1 and 9).
#![tactic(auto)]

ghost use Rattle.std.specs.Prelude.{◌≡◌, ◌-◌, ◌*◌, ◌<◌, ◌≤◌, length, get_or, set};
ghost use Rattle.boxes.specs.Rings.{start_of, next_in, previous_in, in_ring, RingAt, RingEnds};
ghost use Rattle.boxes.specs.Boxes.{edge_box, box_of, rect_at, row_of, Names};

use geom::Rect;
use plans::corner_at;

/// The ring of corner e, by bisection in the ends of the first `count` rings. It holds e on any table; on a rising one no other does.
pub fn ring_of(rings: &[usize], count: usize, e: usize) -> usize
    requires { (0 < count) × (count ≤ length rings.now) × (e < get_or rings.now (count - 1) 0) }
    ensures { RingAt rings.now count e result }
{
    let mut lo: usize = 0;
    let mut hi: usize = count - 1;
    while lo < hi {
        let middle = lo + (hi - lo) / 2;
        if e < rings[middle] {
            hi = middle;
        } else {
            lo = middle + 1;
        }
    }
    lo
}

/// Where ring r starts.
pub fn start_of(rings: &[usize], r: usize) -> usize
    requires { r ≤ length rings.now }
    ensures { result ≡ start_of rings.now r }
{
    if r == 0 { 0 } else { rings[r - 1] }
}

// Whether corner e is in ring r.
fn is_in(rings: &[usize], r: usize, e: usize) -> bool
    requires { r < length rings.now }
    ensures { result ≡ in_ring rings.now r e }
{
    (start_of(rings, r) <= e) & (e < rings[r])
}

// The ring that would hold corner e if all rings were of one length; the first where the numbers are too great to tell.
fn ring_if_even(rings: &[usize], count: usize, e: usize) -> usize
    requires { (0 < count) × (count ≤ length rings.now) × (e < get_or rings.now (count - 1) 0) }
    ensures { result < count }
{
    let n = rings[count - 1];
    if n <= 1 << 32 && count < 1 << 32 {
        e * count / n
    } else {
        0
    }
}

/// The ring of corner e, where ring `last` is tried first, since edges that stand together are mostly of one ring, and then the one that
/// would hold e if all rings were of one length, since many plans have rings of about one length.
pub fn ring_near(rings: &[usize], count: usize, e: usize, last: usize) -> usize
    requires { (last < count) × (count ≤ length rings.now) × (e < get_or rings.now (count - 1) 0) }
    ensures { RingAt rings.now count e result }
{
    if is_in(rings, last, e) {
        return last;
    }
    let guess = ring_if_even(rings, count, e);
    if is_in(rings, guess, e) {
        return guess;
    }
    ring_of(rings, count, e)
}

/// The corner after corner e of ring r: the next, or the ring's first after its last.
pub fn next_corner(rings: &[usize], r: usize, e: usize) -> usize
    requires { (r < length rings.now) × (e < get_or rings.now r 0) }
    ensures { result ≡ next_in (start_of rings.now r) (get_or rings.now r 0) e }
{
    if e + 1 < rings[r] {
        e + 1
    } else {
        start_of(rings, r)
    }
}

/// The corner before corner e of ring r, at which the edge that ends at e starts: the one before, or the ring's last before its first.
pub fn previous_corner(rings: &[usize], r: usize, e: usize) -> usize
    requires { (r < length rings.now) × (e < get_or rings.now r 0) }
    ensures { result ≡ previous_in (start_of rings.now r) (get_or rings.now r 0) e }
{
    if start_of(rings, r) < e {
        e - 1
    } else {
        rings[r] - 1
    }
}

/// The smallest box round edge e of ring r.
pub fn edge_box(
    corners: &[i64],
    rings: &[usize],
    n: usize,
    count: usize,
    r: usize,
    e: usize,
) -> Rect
    requires n_in_bounds { 2 * n ≤ length corners.now }
    requires ring_ends { RingEnds n count rings.now }
    requires ring_at { RingAt rings.now count e r }
    ensures { result ≡ edge_box corners.now rings.now e }
{
    let a = corner_at(corners, e);
    let b = corner_at(corners, next_corner(rings, r, e));
    Rect::new(a, b)
}

/// The smallest box round the edges at the `size` places from `first` on of the edge list; the empty box where there are none.
pub fn part_box(
    corners: &[i64],
    rings: &[usize],
    edges: &[usize],
    n: usize,
    count: usize,
    first: usize,
    size: usize,
) -> Rect
    requires n_in_bounds { 2 * n ≤ length corners.now }
    requires ring_ends { RingEnds n count rings.now }
    requires names { Names n edges.now first size }
    ensures { result ≡ box_of corners.now rings.now edges.now first size }
{
    if size == 0 {
        return Rect::empty();
    }
    let e = edges[first];
    let mut ring = ring_near(rings, count, e, 0);
    let mut b = edge_box(corners, rings, n, count, ring, e);
    for k in 1..size {
        let e = edges[first + k];
        ring = ring_near(rings, count, e, ring);
        b = b.union(edge_box(corners, rings, n, count, ring, e));
    }
    b
}

/// The box at place p of the box table.
pub fn rect_at(boxes: &[[i64; 4]], p: usize) -> Rect
    requires { p < length boxes.now }
    ensures { result ≡ rect_at boxes.now p }
{
    Rect::from(boxes[p])
}

/// Stores a box at place p of the box table.
pub fn put_rect(boxes: &mut [[i64; 4]], p: usize, r: Rect)
    requires { p < length boxes.old }
    ensures { boxes.new ≡ set boxes.old p (row_of r) }
{
    boxes[p] = r.into();
}
