// The rules for polygons, lists and trees as a fold over the rings that are met, by rising ring number (document 01, item 4). A ring
// that is not met is one that the point is outside of, so the work goes by the rings met and not by all that a plan has.
#![tactic(auto)]

ghost use Rattle.std.specs.Prelude.{◌≡◌};
ghost use Rattle.rules.specs.declared.Location.TheVariants.{Inside};
ghost use Rattle.rules.specs.Replies.{within_outer, by_hole};
ghost use Rattle.fold.specs.Folds.{begun, place_of, list_place_of, tree_place_of, with_hole, first_met, with_ring, SpanSays, ListFolds, Folds};

use boxes::{ring_of, start_of};
use rings::places::{flipped, odd_place, stronger, through_hole};
use rules::{Kind, Location};

/// What is known of a region after some of its rings.
#[derive(Clone, Copy)]
pub enum Fold {
    List(ListFold),
    Tree(TreeFold),
}

/// What is known of a list.
#[derive(Clone, Copy)]
pub struct ListFold {
    /// The strongest reply of the polygons before the open one.
    pub best: Location,
    /// The polygon whose rings are being met: `None` before the first ring.
    pub current: Option<Polygon>,
}

/// What is known of a polygon.
#[derive(Clone, Copy)]
pub struct Polygon {
    /// Its reply if no further ring of it is met.
    pub place: Location,
    /// Where its rings end.
    pub end: usize,
}

/// What is known of a tree.
#[derive(Clone, Copy)]
pub struct TreeFold {
    /// Whether the point is inside an odd number of rings.
    pub odd: bool,
    /// Whether it is on the boundary of a ring.
    pub on: bool,
}

// The rings of a polygon: from `start` to before `end`.
#[derive(Clone, Copy)]
pub(crate) struct Span {
    pub start: usize,
    pub end: usize,
}

/// Before the first ring.
pub fn begin(kind: Kind) -> Fold
    ensures { result ≡ begun kind }
{
    match kind {
        Kind::Polygons => Fold::List(ListFold {
            best: Location::Outside,
            current: None,
        }),
        Kind::Tree => Fold::Tree(TreeFold {
            odd: false,
            on: false,
        }),
    }
}

// The rings of the polygon that a ring is of, by bisection in the ends of the first `count` polygons; none only where the table does not
// fit. Whatever the table holds, no entry is read that it does not have.
fn span_of(polygons: &[usize], count: usize, ring: usize) -> Option<Span>
    ensures { SpanSays polygons.now count ring result }
{
    if polygons.len() < count || count == 0 || polygons[count - 1] <= ring {
        return None;
    }
    let polygon = ring_of(polygons, count, ring);
    Some(Span {
        start: start_of(polygons, polygon),
        end: polygons[polygon],
    })
}

// A polygon's place with one more hole: the hole decides only if no ring before it did.
fn after_hole(current: Location, hole: Location) -> Location
    ensures { result ≡ within_outer current (by_hole hole Inside) }
{
    match current {
        Location::Inside => through_hole(hole),
        Location::Outside | Location::OnBoundary => current,
    }
}

// One more hole of the open polygon.
fn with_hole(polygon: Polygon, hole: Location) -> Polygon
    ensures { result ≡ with_hole polygon hole }
{
    Polygon {
        place: after_hole(polygon.place, hole),
        ..polygon
    }
}

// The place of a polygon by the first of its rings that is met: a hole says nothing without the outer.
fn first_met(ring: usize, start: usize, place: Location) -> Location
    ensures { result ≡ first_met ring start place }
{
    if ring == start {
        place
    } else {
        Location::Outside
    }
}

// The strongest of the polygons before the open one and of that one.
fn list_place(list: ListFold) -> Location
    ensures { result ≡ list_place_of list }
{
    match list.current {
        Some(polygon) => stronger(list.best, polygon.place),
        None => list.best,
    }
}

// One more ring of a list: a hole of the open polygon, or the first ring that is met of another one.
fn fold_list(
    polygons: &[usize],
    count: usize,
    list: ListFold,
    ring: usize,
    place: Location,
) -> ListFold
    ensures { ListFolds polygons.now count list ring place result }
{
    if place == Location::Outside {
        return list;
    }
    if let Some(polygon) = list.current {
        if ring < polygon.end {
            return ListFold {
                current: Some(with_hole(polygon, place)),
                ..list
            };
        }
    }
    let Some(Span { start, end }) = span_of(polygons, count, ring) else {
        return list;
    };
    ListFold {
        best: list_place(list),
        current: Some(Polygon {
            place: first_met(ring, start, place),
            end,
        }),
    }
}

// One more ring of a tree.
fn fold_tree(tree: TreeFold, place: Location) -> TreeFold
    ensures { result ≡ with_ring tree place }
{
    TreeFold {
        odd: flipped(tree.odd, place),
        on: tree.on | (place == Location::OnBoundary),
    }
}

/// One more ring, of a higher number than those before it, with the point's place in it. The polygon table of a list holds where the
/// rings of each of its `count` polygons end; a tree's is not looked at. Over a table that does not fit the call is safe and gives
/// some fold.
pub fn fold_ring(polygons: &[usize], count: usize, fold: Fold, ring: usize, place: Location) -> Fold
    ensures { Folds polygons.now count fold ring place result }
{
    match fold {
        Fold::List(list) => Fold::List(fold_list(polygons, count, list, ring, place)),
        Fold::Tree(tree) => Fold::Tree(fold_tree(tree, place)),
    }
}

// Any boundary is the boundary; otherwise inside an odd number of rings is inside.
fn tree_place(tree: TreeFold) -> Location
    ensures { result ≡ tree_place_of tree }
{
    if tree.on {
        Location::OnBoundary
    } else {
        odd_place(tree.odd)
    }
}

/// Where the point lies if no further ring is met.
pub fn finish(fold: Fold) -> Location
    ensures { result ≡ place_of fold }
{
    match fold {
        Fold::List(list) => list_place(list),
        Fold::Tree(tree) => tree_place(tree),
    }
}
