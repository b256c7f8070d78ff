// The walk through the hierarchy of boxes, as a step that yields the next edge number (document 01, items 5 and 9, refusal 15; `visit`
// and `ray_segments` of src/prepared.rs). The query stands for the closure of the Rust: whoever asks says what it looks for.
#![tactic(auto)]

ghost use Rattle.std.specs.Prelude.{◌≡◌, ◌+◌, ◌<◌, ◌≤◌, length};
ghost use Rattle.walk.specs.Steps.{enters, Lent, Whether, Waiting, NodeSays, after_node, at_place, Begun, TurnSays, StopIn, StepIn};

/// An edge by its number.
pub mod edges;
/// The place of an edge in the edge list.
pub mod place;

use boxes::rect_at;
use geom::Rect;
pub use index::build::STACK;
use index::build::push;
use index::count::node_count;
use index::parts::part_at;
use rules::Unsound;

/// The tables of a prepared plan as a walk is lent them: n corners in `count` rings, and the hierarchy of boxes over their n edges. Each
/// table may be longer than the plan; one that is shorter, or holds no plan, is found out.
#[derive(Clone, Copy)]
pub struct LentPlan<'a> {
    /// The corners' coordinates: x, y, x, y, ..
    pub corners: &'a [i64],
    /// Where each ring ends.
    pub rings: &'a [usize],
    /// The box of each node.
    pub boxes: &'a [[i64; 4]],
    /// Where the part of each node starts in the edge list, how long it is, and where the left child stands.
    pub parts: &'a [[usize; 3]],
    /// The edge list.
    pub edges: &'a [usize],
    /// How many corners there are, and edges.
    pub n: usize,
    /// How many rings there are.
    pub count: usize,
}

/// What a walk looks for, and so which boxes it enters.
#[derive(Clone, Copy)]
pub enum Query {
    /// The boxes that share a point with a closed rectangle, if only one of their rims.
    Meeting(Rect),
    /// The boxes that hold the whole of a closed rectangle.
    Holding(Rect),
}

/// Where a walk stands: how many nodes the index has, how many of them wait on the stack, how many were met, and the places of the edge
/// list that are left of the leaf in hand, from `at` up to `to`.
#[derive(Clone, Copy)]
pub struct Cursor {
    pub nodes: usize,
    pub waiting: usize,
    pub met: usize,
    pub at: usize,
    pub to: usize,
}

/// A step of a walk: the next edge number, and where the walk stands after it.
#[derive(Clone, Copy)]
pub struct Step {
    pub edge: usize,
    pub after: Cursor,
}

// What a node asks of a walk.
#[derive(Clone, Copy)]
pub(crate) enum Node {
    // its box is not entered; its part ends at this place
    Missed(usize),
    // a leaf, with the places from one to another
    Leaf(usize, usize),
    // cut: its part starts at this place, and its left child stands at that one
    Cut(usize, usize),
}

// Whether the stack, which has room for so many, and the tables are as long as the state says, and the cursor's numbers within them.
fn lent_enough(room: usize, plan: &LentPlan<'_>, cursor: Cursor) -> bool
    ensures { Whether (Lent plan.now.n room (length plan.now.boxes.now) (length plan.now.parts.now) (length plan.now.edges.now) cursor) result }
{
    STACK <= room
        && cursor.nodes <= plan.boxes.len()
        && cursor.nodes <= plan.parts.len()
        && plan.n <= plan.edges.len()
        && cursor.waiting <= STACK
        && cursor.to <= plan.n
}

// Whether a node with this box is entered.
fn is_entered(query: Query, rect: Rect) -> bool
    ensures { result ≡ enters query rect }
{
    match query {
        Query::Meeting(wanted) => rect.intersects(wanted),
        Query::Holding(wanted) => rect.contains_rect(wanted),
    }
}

// What node p asks, with every number that it names tested: 15 where one is outside its table.
fn node_at(
    boxes: &[[i64; 4]],
    parts: &[[usize; 3]],
    n: usize,
    nodes: usize,
    query: Query,
    p: usize,
) -> Result<Node, Unsound>
    requires { (nodes ≤ length boxes.now) × (nodes ≤ length parts.now) }
    ensures { NodeSays boxes.now parts.now n nodes query p result }
{
    let part = part_at(parts, n, nodes, p)?;
    let end = part.first + part.count;
    if !is_entered(query, rect_at(boxes, p)) {
        return Ok(Node::Missed(end));
    }
    Ok(match part.left_child(nodes)? {
        None => Node::Leaf(part.first, end),
        Some(left) => Node::Cut(part.first, left),
    })
}

// Where a walk stands when one more node is met.
fn after_node(cursor: Cursor, waiting: usize, at: usize, to: usize) -> Cursor
    requires { cursor.met < cursor.nodes }
    ensures { result ≡ after_node cursor waiting at to }
{
    Cursor {
        waiting,
        met: cursor.met + 1,
        at,
        to,
        ..cursor
    }
}

// Takes the top node off the stack: a leaf comes in hand, the children of a cut node wait in its place, left on top, and a node whose
// box is not entered is passed over with all that is below it. Gives where the walk stands after the node, or 15.
fn meet_node(
    stack: &mut [usize],
    boxes: &[[i64; 4]],
    parts: &[[usize; 3]],
    n: usize,
    query: Query,
    cursor: Cursor,
) -> Result<Cursor, Unsound>
    requires { Waiting (length stack.old) (length boxes.now) (length parts.now) cursor }
    ensures { TurnSays n boxes.now parts.now query stack.old cursor stack.new result }
{
    if cursor.nodes <= cursor.met {
        return Err(Unsound);
    }
    let top = cursor.waiting - 1;
    match node_at(boxes, parts, n, cursor.nodes, query, stack[top])? {
        Node::Missed(end) => Ok(after_node(cursor, top, end, end)),
        Node::Leaf(first, end) => Ok(after_node(cursor, top, first, end)),
        Node::Cut(first, left) => {
            // the two children take the places top and top + 1
            if STACK - 2 < top {
                return Err(Unsound);
            }
            push(stack, top, left + 1, left);
            Ok(after_node(cursor, top + 2, first, first))
        }
    }
}

/// A walk over n edges that has met no node yet. Its stack holds the root's place, 0, at the bottom: an array of zeros will do.
pub fn start(n: usize) -> Cursor
    ensures { Begun n result }
{
    Cursor {
        nodes: node_count(n),
        waiting: 1,
        met: 0,
        at: 0,
        to: 0,
    }
}

/// The next leaf of a walk that looks for what the query says: where the walk stands with the leaf in hand, whose places from `at` up to
/// `to` are left, one at least, or `None` at the end. A walk that has a leaf in hand stays where it is. The tables are only read; what the
/// stack is, and when 15 (`Unsound`) comes, is as `next` has it, but for edge numbers: whoever takes them tests them.
///
/// On sound tables, with a cursor and a stack as `start` and earlier calls left them, no edge of the places passed over on the way has a
/// box that the query enters. Whoever takes the leaf's edges goes on from its end, with `to` as `at`.
pub fn next_leaf(
    stack: &mut [usize],
    plan: &LentPlan<'_>,
    query: Query,
    cursor: Cursor,
) -> Result<Option<Cursor>, Unsound>
    ensures { StopIn plan.now query stack.old cursor stack.new result }
{
    if !lent_enough(stack.len(), plan, cursor) {
        return Err(Unsound);
    }
    // out of the struct before the loop, so that they stay in registers
    let LentPlan {
        boxes,
        parts,
        n,
        ..
    } = *plan;
    let mut here = cursor;
    while here.to <= here.at {
        if here.waiting == 0 {
            return Ok(None);
        }
        here = meet_node(stack, boxes, parts, n, query, here)?;
    }
    Ok(Some(here))
}

// The walk at another place of the leaf in hand.
fn at_place(cursor: Cursor, at: usize) -> Cursor
    ensures { result ≡ at_place cursor at }
{
    Cursor { at, ..cursor }
}

/// The walk past the leaf in hand.
pub fn past_leaf(cursor: Cursor) -> Cursor
    ensures { result ≡ at_place cursor cursor.to }
{
    at_place(cursor, cursor.to)
}

/// The next edge of a walk that looks for what the query says, with the walk after it, or `None` at the end. The tables are only read. The
/// stack is working space and no table of the plan: an array of `STACK` numbers that the caller keeps for the length of one walk and lends
/// to each step. Whatever a step gives, of the stack it may have changed the first `STACK` numbers and no other. One that is refused leaves
/// every table as it was, and the stack too where a leaf was in hand or a table or the stack is too short.
///
/// On sound tables, with a cursor and a stack as `start` and earlier steps left them, every edge whose box the query enters comes, none
/// twice, and others may come. On any tables an edge that comes stands in the edge list at the place before the cursor's. Refused with
/// 15 (`Unsound`) where a number leads outside its table, more nodes are met than the index has, more than 18 would wait, or a table or
/// the stack is too short: never on sound tables with such a cursor and such a stack of at least 18 numbers.
pub fn next(
    stack: &mut [usize],
    plan: &LentPlan<'_>,
    query: Query,
    cursor: Cursor,
) -> Result<Option<Step>, Unsound>
    ensures { StepIn plan.now query stack.old cursor stack.new result }
{
    let Some(here) = next_leaf(stack, plan, query, cursor)? else {
        return Ok(None);
    };
    let edge = plan.edges[here.at];
    if plan.n <= edge {
        return Err(Unsound);
    }
    Ok(Some(Step {
        edge,
        after: at_place(here, here.at + 1),
    }))
}
