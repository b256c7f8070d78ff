// The node table as a lent list of records (document 01, items 5 and 9, refusal 15): thin functions that read, put and refit one node.
// What they compute they leave to functions over plain numbers, lists of numbers and records by value.
#![tactic(auto)]

ghost use Rattle.std.specs.Prelude.{◌≡◌, set};
ghost use Rattle.nodes.specs.Nodes.{leaf_refitted, cut_refitted};
ghost use Rattle.nodes.specs.Answers.{ends_rise, names_edges, is_fit, is_listed, leaf_sound, cut_sound, Reads, Writes};

use boxes::{part_box, start_of};
use geom::Rect;
use index::parts::Part;
use rules::Unsound;

/// A node of the index: its box, and its part of the edge list with the place of its left child, next to which its right child stands.
#[derive(Clone, Copy, PartialEq, Eq)]
pub struct Node {
    pub rect: Rect,
    pub part: Part,
}

// Whether the first `count` ring ends stand in the table, rise, and come to n.
fn ends_rise(rings: &[usize], n: usize, count: usize) -> bool
    ensures { result ≡ ends_rise n count rings.now }
{
    if rings.len() < count {
        return false;
    }
    rings[..count].is_sorted() && start_of(rings, count) == n
}

// Whether the `size` places from `first` on stand in the edge list and each names one of n edges.
fn names_edges(edges: &[usize], n: usize, first: usize, size: usize) -> bool
    ensures { result ≡ names_edges n edges.now first size }
{
    if edges.len() < first || edges.len() - first < size {
        return false;
    }
    edges[first..first + size].iter().all(|&e| e < n)
}

// Whether all that the box of a node's part is made of lies in its table.
fn is_fit(
    corners: &[i64],
    rings: &[usize],
    edges: &[usize],
    n: usize,
    count: usize,
    node: Node,
) -> bool
    ensures { result ≡ is_fit n count corners.now rings.now edges.now node }
{
    n <= corners.len() / 2
        && ends_rise(rings, n, count)
        && names_edges(edges, n, node.part.first, node.part.count)
}

/// The node at place p.
///
/// Refused with 15 (`Unsound`) where the list has no place p.
pub fn node_at(nodes: &[Node], p: usize) -> Result<Node, Unsound>
    ensures { Reads nodes.now p result }
{
    nodes.get(p).copied().ok_or(Unsound)
}

/// Puts a node at place p. No other is written.
///
/// Refused with 15 (`Unsound`) where the list has no place p; it stays as it was.
pub fn put_node(nodes: &mut [Node], p: usize, node: Node) -> Result<(), Unsound>
    ensures { Writes (is_listed nodes.old p) (set nodes.old p node) nodes.old result nodes.new }
{
    if nodes.len() <= p {
        return Err(Unsound);
    }
    nodes[p] = node;
    Ok(())
}

/// Gives the node at place p the smallest box round the edges of its part, whether that is wider or narrower than its own. Nothing else
/// of it changes, and no other node is written.
///
/// Refused with 15 (`Unsound`) where the list has no place p, its part leaves the edge list or names an edge that is not one of n, the
/// corner table has fewer than n corners, or the ends of the `count` rings do not rise to n: never on sound tables. A refused list stays
/// as it was. The cost is one pass over the ends of all rings, and two over the part.
pub fn refit_leaf(
    nodes: &mut [Node],
    corners: &[i64],
    rings: &[usize],
    edges: &[usize],
    n: usize,
    count: usize,
    p: usize,
) -> Result<(), Unsound>
    ensures { Writes (leaf_sound n count corners.now rings.now edges.now nodes.old p) (leaf_refitted corners.now rings.now edges.now nodes.old p) nodes.old result nodes.new }
{
    let node = node_at(nodes, p)?;
    if !is_fit(corners, rings, edges, n, count, node) {
        return Err(Unsound);
    }
    let part = node.part;
    nodes[p].rect = part_box(corners, rings, edges, n, count, part.first, part.count);
    Ok(())
}

/// Gives the node at place p the union of its two children's boxes: the smallest round its edges where theirs are. Nothing else of it
/// changes, and no other node is written.
///
/// Refused with 15 (`Unsound`) where the list has no place p, a leaf there, which has no children, or not both of its children: never for a
/// cut node of sound tables. A refused list stays as it was.
pub fn refit_cut(nodes: &mut [Node], p: usize) -> Result<(), Unsound>
    ensures { Writes (cut_sound nodes.old p) (cut_refitted nodes.old p) nodes.old result nodes.new }
{
    let node = node_at(nodes, p)?;
    let Some(left) = node.part.left_child(nodes.len())? else {
        return Err(Unsound);
    };
    nodes[p].rect = nodes[left].rect.union(nodes[left + 1].rect);
    Ok(())
}
