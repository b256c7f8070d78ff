// The tables of the hierarchy, built in one pass: a stack of the nodes that are still to be looked at, of which there are never more
// than 18.
ghost use Rattle.std.specs.Prelude.{◌≡◌, ◌+◌, ◌-◌, ◌/◌, ◌<◌, ◌≤◌, length, set};
ghost use Rattle.rules.specs.Nodes.{node_count};
ghost use Rattle.boxes.specs.Rings.{RingEnds, CornersNear};
ghost use Rattle.boxes.specs.Boxes.{rect_at, Names, NearRect};
ghost use Rattle.index.specs.Parts.{first_at, count_at, part_row};
ghost use Rattle.index.specs.Build.{Numbered, Two, Children, NodeCut, Built};

use crate::parts::Part;
use boxes::{part_box, put_rect, rect_at};
use cut::keys::{axis_of, cut_part};
use geom::Rect;

/// The most edges of a node that is not cut.
pub const LEAF: usize = 8;

/// The most nodes that wait while the index is built, or while a walk of sound tables goes through it.
pub const STACK: usize = 18;

// Puts the edge numbers 0 to n - 1 in order.
fn number(edges: &mut [usize], n: usize)
    requires { n ≤ length edges.old }
    ensures { Numbered n edges.old edges.new }
{
    for (i, edge) in edges[..n].iter_mut().enumerate() {
        *edge = i;
    }
}

/// Puts two nodes on the stack; the second is looked at first.
pub fn push(waiting: &mut [usize], top: usize, below: usize, above: usize)
    requires { top + 1 < length waiting.old }
    ensures { Two waiting.old top below above waiting.new }
{
    waiting[top] = below;
    waiting[top + 1] = above;
}

// Stores a node's part of the edge list and the place of its left child, 0 for a leaf.
fn put_part(parts: &mut [[usize; 3]], p: usize, first: usize, count: usize, child: usize)
    requires { p < length parts.old }
    ensures { parts.new ≡ set parts.old p (part_row first count child) }
{
    parts[p] = [first, count, child];
}

// Cuts the part of node p at its middle: the boxes and parts of its two children stand at its left child's place and the next.
fn put_children(
    boxes: &mut [[i64; 4]],
    parts: &mut [[usize; 3]],
    p: usize,
    part: Part,
    left: Rect,
    right: Rect,
)
    requires p_in_bounds { (p < length parts.old) × (part.child + 1 < length parts.old) × (part.child + 1 < length boxes.old) }
    requires part_bound { part.first + part.count ≤ 1048576 }
    ensures { Children boxes.old parts.old p part.child (part.child + 1) part.first (part.count / 2) (part.count - part.count / 2) left right boxes.new parts.new }
{
    let Part {
        first,
        count,
        child,
    } = part;
    let half = count / 2;
    put_rect(boxes, child, left);
    put_rect(boxes, child + 1, right);
    put_part(parts, p, first, count, child);
    put_part(parts, child, first, half, 0);
    put_part(parts, child + 1, first + half, count - half, 0);
}

// Cuts node p, puts its two parts at the next free places, and returns how many keys it compared.
fn cut_node(
    corners: &[i64],
    rings: &[usize],
    boxes: &mut [[i64; 4]],
    parts: &mut [[usize; 3]],
    edges: &mut [usize],
    n: usize,
    count: usize,
    p: usize,
    free: usize,
) -> usize
    requires corners_near { CornersNear n corners.now }
    requires ring_ends { RingEnds n count rings.now }
    requires p_lt_free { (p < free) × (free + 1 < length boxes.old) × (free + 1 < length parts.old) }
    requires near_rect { NearRect (rect_at boxes.old p) }
    requires names { Names n edges.old (first_at parts.old p) (count_at parts.old p) }
    requires part_inside { (0 < count_at parts.old p) × (first_at parts.old p + count_at parts.old p ≤ n) }
    ensures { NodeCut corners.now rings.now boxes.old parts.old edges.old p free boxes.new parts.new edges.new result }
{
    let [first, size, _] = parts[p];
    let half = size / 2;
    let rest = size - half;
    let axis = axis_of(rect_at(boxes, p));
    let reads = cut_part(corners, rings, edges, n, count, axis, first, size);
    let left = part_box(corners, rings, edges, n, count, first, half);
    let right = part_box(corners, rings, edges, n, count, first + half, rest);
    let part = Part {
        first,
        count: size,
        child: free,
    };
    put_children(boxes, parts, p, part, left, right);
    reads
}

/// A hierarchy that was built.
#[derive(Clone, Copy)]
pub struct Hierarchy {
    /// How many nodes it has, N(n).
    pub nodes: usize,
    /// How many keys its cuts compared: at most 65 an edge and level.
    pub reads: usize,
}

/// Builds the index over the n edges of a plan in range, and returns its number of nodes, N(n), and how many keys it compared. With no
/// edges it has one node, round nothing. Rows from N(n) on and entries from n on stay as they were.
pub fn build(
    corners: &[i64],
    rings: &[usize],
    boxes: &mut [[i64; 4]],
    parts: &mut [[usize; 3]],
    edges: &mut [usize],
    n: usize,
    count: usize,
) -> Hierarchy
    requires corners_near { CornersNear n corners.now }
    requires ring_ends { RingEnds n count rings.now }
    requires n_in_bounds { (node_count n ≤ length boxes.old) × (node_count n ≤ length parts.old) × (n ≤ length edges.old) }
    ensures { Built n corners.now rings.now boxes.old parts.old edges.old boxes.new parts.new edges.new result.nodes result.reads }
{
    number(edges, n);
    let whole = part_box(corners, rings, edges, n, count, 0, n);
    put_rect(boxes, 0, whole);
    put_part(parts, 0, 0, n, 0);
    // an array and no vector: `push` serves the walk too, whose stack is an array that the caller lends
    let mut waiting: [usize; STACK] = [0; STACK];
    let mut top: usize = 1;
    let mut free: usize = 1;
    let mut reads: usize = 0;
    while 0 < top {
        top -= 1;
        let p = waiting[top];
        let size = parts[p][1];
        if LEAF < size {
            reads += cut_node(corners, rings, boxes, parts, edges, n, count, p, free);
            push(&mut waiting, top, free, free + 1);
            top += 2;
            free += 2;
        }
    }
    Hierarchy { nodes: free, reads }
}
