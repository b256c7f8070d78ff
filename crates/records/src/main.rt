// Node records beside the tables of numbers (document 01, "then as a lent list of node records").
//
// A plan is prepared and its index put into an array of node records, node by node. Then each corner in turn is moved, and the records are
// refitted along the paths to its two edges. After every move each record is read and held to the row of boxes and parts that the engine's
// own refit left.
//
// One plan has 20 corners and so seven nodes, the other 8 and so a leaf at the root; both have three rings, the second of them empty. Over the
// larger one each call is refused once for every reason that it has, and the records have to be as they were.
#![tactic(auto)]

use boxes::previous_corner;
use corrections::move_corner;
use geom::{Point, Rect};
use index::build::LEAF;
use index::parts::Part;
use nodes::{Node, node_at, put_node, refit_cut, refit_leaf};
use plans::Plan;
use prepare::prepare;
use refit::{DEPTH, find_way};
use rules::{Kind, State};
use std::io;
use walk::LentPlan;
use walk::place::place_of_edge;

// The most corners that a plan has, and the nodes of an index over so many.
const CORNERS: usize = 20;

const NODES: usize = 7;

// A place that no list has.
const NOWHERE: usize = NODES;

fn write(rt: &impl Print, text: &str) -> io::Result<()> {
    rt.print(text)
}

// A node of no edges.
fn no_node() -> Node {
    Node {
        rect: Rect::empty(),
        part: Part::from([0; 3]),
    }
}

// The node that the tables hold at place p.
fn node_of(boxes: &[[i64; 4]], parts: &[[usize; 3]], p: usize) -> Node {
    if boxes.len() <= p || parts.len() <= p {
        return no_node();
    }
    Node {
        rect: Rect::from(boxes[p]),
        part: Part::from(parts[p]),
    }
}

// Corners that seem to have no order.
fn put_coordinates(coordinates: &mut [i64]) {
    for (i, coordinate) in coordinates.iter_mut().enumerate() {
        *coordinate = (i % 101 * 37 % 101) as i64;
    }
}

// The list with the node of each place of the tables put there.
fn filled(boxes: &[[i64; 4]], parts: &[[usize; 3]]) -> [Node; NODES] {
    let mut nodes = [no_node(); NODES];
    for p in 0..NODES {
        let _ = put_node(&mut nodes, p, node_of(boxes, parts, p));
    }
    nodes
}

// Whether every node that is read is the one that the tables hold there.
fn alike(nodes: &[Node], boxes: &[[i64; 4]], parts: &[[usize; 3]]) -> bool {
    (0..nodes.len()).all(|p| node_at(nodes, p).is_ok_and(|node| node == node_of(boxes, parts, p)))
}

// Refits the nodes of a path, the last of them, a leaf, by its edges and then each above it by its children.
fn along(nodes: &mut [Node], plan: &LentPlan<'_>, path: &[usize]) {
    let [above @ .., leaf] = path else {
        return;
    };
    let _ = refit_leaf(
        nodes,
        plan.corners,
        plan.rings,
        plan.edges,
        plan.n,
        plan.count,
        *leaf,
    );
    for &p in above.iter().rev() {
        let _ = refit_cut(nodes, p);
    }
}

// Refits the nodes above edge e.
fn refit_above(nodes: &mut [Node], plan: &LentPlan<'_>, e: usize) {
    let Ok(k) = place_of_edge(plan, e) else {
        return;
    };
    let mut path = [0; DEPTH];
    let mut stops = [0; LEAF];
    let way = find_way(
        &mut path, &mut stops, plan.rings, plan.parts, plan.edges, plan.n, plan.count, k,
    );
    if let Ok(depth) = way {
        along(nodes, plan, path.get(..depth).unwrap_or(&[]));
    }
}

// The edge that ends at a corner, in the ring that holds it: the first to end after it.
fn edge_before(rings: &[usize], corner: usize) -> usize {
    let Some(ring) = rings.iter().position(|&end| corner < end) else {
        return corner;
    };
    previous_corner(rings, ring, corner)
}

// Refits the records after a move of a corner, along the path to the edge that starts there and to the one that ends there.
fn refit_both(nodes: &mut [Node], plan: &LentPlan<'_>, corner: usize) {
    refit_above(nodes, plan, corner);
    refit_above(nodes, plan, edge_before(plan.rings, corner));
}

// Moves each corner in turn, once far out and once back in, so many moves together. Whether every move is accepted and the records are
// then what the tables are.
fn moved(
    nodes: [Node; NODES],
    state: State,
    corners: &mut [i64],
    rings: &[usize],
    boxes: &mut [[i64; 4]],
    parts: &[[usize; 3]],
    edges: &[usize],
    undo: &mut [[i64; 3]],
    moves: usize,
) -> bool {
    let n = moves / 2;
    let mut now = state;
    let mut records = nodes;
    let mut held = true;
    for i in 0..moves {
        let far = ((i + 1) % 2 * 500) as i64;
        let place = Point { x: far, y: 7 };
        let corner = i / 2;
        let Ok(next) = move_corner(
            now, corners, rings, boxes, parts, edges, undo, corner, place,
        ) else {
            return false;
        };
        now = next;
        let plan = LentPlan {
            corners,
            rings,
            boxes,
            parts,
            edges,
            n,
            count: rings.len(),
        };
        refit_both(&mut records, &plan, corner);
        held &= alike(&records, boxes, parts);
    }
    held
}

// Whether the refits of a leaf and of a cut node at these places are refused over tables of n corners and `count` rings, and with them a
// put and a read past the list, and all of them leave the list as it was.
fn refused(
    nodes: [Node; NODES],
    corners: &[i64],
    rings: &[usize],
    edges: &[usize],
    n: usize,
    count: usize,
    leaf: usize,
    cut: usize,
) -> bool {
    let mut list = nodes;
    put_node(&mut list, NOWHERE, no_node()).is_err()
        & refit_leaf(&mut list, corners, rings, edges, n, count, leaf).is_err()
        & refit_cut(&mut list, cut).is_err()
        & node_at(&list, NOWHERE).is_err()
        & (list == nodes)
}

// The list with a node at place 6 of this part and this child, in a box of its own.
fn damaged(nodes: [Node; NODES], first: usize, count: usize, child: usize) -> [Node; NODES] {
    let mut list = nodes;
    list[6] = Node {
        rect: Rect::new(Point { x: 1, y: 2 }, Point { x: 3, y: 4 }),
        part: Part::from([first, count, child]),
    };
    list
}

fn write_whether(rt: &impl Print, name: &str, held: bool) -> io::Result<()> {
    write(rt, name)?;
    write(rt, if held { " yes\n" } else { " no\n" })
}

// What tables of other lengths or numbers get, for the leaf at place 6 of a plan of 20 corners in three rings.
fn refused_tables(
    rt: &impl Print,
    nodes: [Node; NODES],
    corners: &[i64],
    rings: &[usize],
    edges: &[usize],
) -> io::Result<()> {
    let few = [0; 38];
    let falling = [9, 8, 20];
    let nowhere = [20; CORNERS];
    write_whether(
        rt,
        "too few corners refused",
        refused(nodes, &few, rings, edges, 20, 3, 6, NOWHERE),
    )?;
    write_whether(
        rt,
        "too few rings refused",
        refused(nodes, corners, rings, edges, 20, 4, 6, NOWHERE),
    )?;
    write_whether(
        rt,
        "rings that end elsewhere refused",
        refused(nodes, corners, rings, edges, 19, 3, 6, NOWHERE),
    )?;
    write_whether(
        rt,
        "ring ends that fall refused",
        refused(nodes, corners, &falling, edges, 20, 3, 6, NOWHERE),
    )?;
    write_whether(
        rt,
        "an edge that is none refused",
        refused(nodes, corners, rings, &nowhere, 20, 3, 6, NOWHERE),
    )
}

// What places and nodes get that lead outside their table.
fn refused_nodes(
    rt: &impl Print,
    nodes: [Node; NODES],
    corners: &[i64],
    rings: &[usize],
    edges: &[usize],
) -> io::Result<()> {
    let past = damaged(nodes, 20, 9, 6);
    let far = damaged(nodes, 21, 9, usize::MAX);
    write_whether(
        rt,
        "a place past the list refused",
        refused(nodes, corners, rings, edges, 20, 3, NOWHERE, NOWHERE),
    )?;
    write_whether(
        rt,
        "a leaf's children refused",
        refused(nodes, corners, rings, edges, 20, 3, NOWHERE, 6),
    )?;
    write_whether(
        rt,
        "a part that ends past the edge list and a child past the list refused",
        refused(past, corners, rings, edges, 20, 3, 6, 6),
    )?;
    write_whether(
        rt,
        "a part that begins past the edge list and the largest child refused",
        refused(far, corners, rings, edges, 20, 3, 6, 6),
    )
}

// All that is asked of the records of a plan just prepared, with two moves a corner.
fn examine(
    rt: &impl Print,
    state: State,
    corners: &mut [i64],
    rings: &[usize],
    boxes: &mut [[i64; 4]],
    parts: &[[usize; 3]],
    edges: &[usize],
    moves: usize,
) -> io::Result<()> {
    let n = moves / 2;
    let mut undo = [[0; 3]; 2 * CORNERS];
    let nodes = filled(boxes, parts);
    write_whether(rt, "filled", alike(&nodes, boxes, parts))?;
    if n == CORNERS {
        refused_tables(rt, nodes, corners, rings, edges)?;
        refused_nodes(rt, nodes, corners, rings, edges)?;
    }
    let held = moved(
        nodes, state, corners, rings, boxes, parts, edges, &mut undo, moves,
    );
    write_whether(
        rt,
        "each corner moved twice, and alike after each move",
        held,
    )
}

// Prepares a tree of three rings, of at most 20 corners together, and asks.
fn examine_plan(rt: &impl Print, coordinates: &[i64], lengths: &[usize]) -> io::Result<()> {
    let plan = Plan {
        kind: Kind::Tree,
        coordinates,
        lengths,
        counts: &[],
    };
    let mut corners = [0; 2 * CORNERS];
    let mut rings = [0; 3];
    let mut polygons = [];
    let mut boxes = [[0; 4]; NODES];
    let mut parts = [[0; 3]; NODES];
    let mut edges = [0; CORNERS];
    match prepare(
        &plan,
        &mut corners,
        &mut rings,
        &mut polygons,
        &mut boxes,
        &mut parts,
        &mut edges,
    ) {
        Err(_) => write(rt, "refused\n"),
        Ok(ready) => examine(
            rt,
            ready.state,
            &mut corners,
            &rings,
            &mut boxes,
            &parts,
            &edges,
            coordinates.len(),
        ),
    }
}

fn main(rt: HostRuntime) -> io::Result<()> {
    let mut many = [0; 2 * CORNERS];
    let mut few = [0; 16];
    put_coordinates(&mut many);
    put_coordinates(&mut few);
    write(&rt, "20 corners in three rings, one of them empty\n")?;
    examine_plan(&rt, &many, &[9, 0, 11])?;
    write(
        &rt,
        "8 corners in three rings, one of them empty: a leaf at the root\n",
    )?;
    examine_plan(&rt, &few, &[5, 0, 3])
}
