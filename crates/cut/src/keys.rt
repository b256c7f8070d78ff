// The cutting key of an edge, and the cut of a part of the edge list by it. While a part is cut it holds packed numbers, key and edge
// number in one, side by side in memory; the edge's box is looked up once a cut and not at each comparison.
ghost use Rattle.std.specs.Prelude.{◌≡◌, ◌+◌, ◌^◌, ◌<◌, ◌≤◌, nat_abs, length};
ghost use Rattle.boxes.specs.Rings.{RingEnds, CornersNear};
ghost use Rattle.boxes.specs.Boxes.{Names, NearRect};
ghost use Rattle.cut.specs.Keys.{axis_of, key_of, packed_of, number_of, packed_edge, Mapped, CutPart};

use boxes::{edge_box, ring_near};
use geom::{MAX_DOUBLED, Rect};

// How many edge numbers there are: 2^20.
const NUMBERS: usize = 1 << 20;

/// The axis along which a part is cut: a value and no closure, since contracts name it (`CutRule`).
#[derive(Clone, Copy, PartialEq, Eq)]
pub enum Axis {
    /// Left and right parts, by x.
    X,
    /// Lower and upper parts, by y.
    Y,
}

/// The axis along which a node with this box is cut: x if the box is at least as wide as high.
pub fn axis_of(b: Rect) -> Axis
    requires { NearRect b }
    ensures { result ≡ axis_of b }
{
    if b.max.y - b.min.y <= b.max.x - b.min.x {
        Axis::X
    } else {
        Axis::Y
    }
}

// The cutting key of an edge with this box: its least plus its greatest coordinate on the axis.
fn key_of(axis: Axis, b: Rect) -> i64
    requires { NearRect b }
    ensures { result ≡ key_of axis b }
{
    match axis {
        Axis::X => b.min.x + b.max.x,
        Axis::Y => b.min.y + b.max.y,
    }
}

// A key and an edge number in one number: ordered packed numbers have ordered keys.
fn packed(key: i64, e: usize) -> usize
    requires { (nat_abs key ≤ 2 ^ 41) × (e < 2 ^ 20) }
    ensures { result ≡ packed_of key e }
{
    (key + MAX_DOUBLED) as usize * NUMBERS + e
}

/// Puts packed numbers in the place of the edges of a part: until they are unpacked, the part holds these and no edge numbers.
pub fn pack(
    corners: &[i64],
    rings: &[usize],
    edges: &mut [usize],
    n: usize,
    count: usize,
    axis: Axis,
    first: usize,
    size: usize,
)
    requires corners_near { CornersNear n corners.now }
    requires ring_ends { RingEnds n count rings.now }
    requires names { Names n edges.old first size }
    ensures { Mapped (packed_edge corners.now rings.now axis) first (first + size) edges.old edges.new }
{
    let mut ring: usize = 0;
    for i in first..first + size {
        let e = edges[i];
        ring = ring_near(rings, count, e, ring);
        let b = edge_box(corners, rings, n, count, ring, e);
        edges[i] = packed(key_of(axis, b), e);
    }
}

// Puts the edge numbers back.
fn unpack(edges: &mut [usize], first: usize, size: usize)
    requires { first + size ≤ length edges.old }
    ensures { Mapped number_of first (first + size) edges.old edges.new }
{
    for i in first..first + size {
        edges[i] %= NUMBERS;
    }
}

/// Cuts the `size` places from `first` on of the edge list at their middle, size / 2 of them on the left: no key on the left exceeds
/// one on the right. Returns how many keys it compared, at most 65 times the size.
pub fn cut_part(
    corners: &[i64],
    rings: &[usize],
    edges: &mut [usize],
    n: usize,
    count: usize,
    axis: Axis,
    first: usize,
    size: usize,
) -> usize
    requires corners_near { CornersNear n corners.now }
    requires ring_ends { RingEnds n count rings.now }
    requires names { Names n edges.old first size }
    requires part_inside { (0 < size) × (first + size ≤ n) }
    ensures { CutPart corners.now rings.now axis first size edges.old edges.new result }
{
    pack(corners, rings, edges, n, count, axis, first, size);
    let reads = crate::selection::select(edges, first, first + size / 2, first + size);
    unpack(edges, first, size);
    reads
}
