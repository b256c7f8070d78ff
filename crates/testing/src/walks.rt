// Walks through the boxes, step by step, and places of edges.
ghost use Rattle.std.specs.Prelude.{◌≡◌, ℕ, eqb, Option, Result};
ghost use Rattle.rules.specs.declared.Unsound.{Unsound};
ghost use Rattle.walk.specs.declared.Step.{Step};
ghost use Rattle.walk.specs.Places.{PlaceSays};
ghost use Rattle.walk.specs.Steps.{Begun, Says};
ghost use Rattle.testing.specs.Walks.{cursor_of, cursor_numbers, rect_named, query_named, step_numbers, place_named};

use geom::{Point, Rect};
use rules::{Refusal, Unsound};
use walk::place::place_of_edge;
use walk::{Cursor, LentPlan, Query, Step, next, start};

/// A rectangle as it crosses the C boundary.
#[repr(C)]
#[derive(Clone, Copy)]
pub struct RectNumbers {
    pub least_x: i64,
    pub least_y: i64,
    pub greatest_x: i64,
    pub greatest_y: i64,
}

/// A cursor as it crosses the C boundary.
#[repr(C)]
#[derive(Clone, Copy)]
pub struct CursorNumbers {
    pub nodes: usize,
    pub waiting: usize,
    pub met: usize,
    pub at: usize,
    pub to: usize,
}

/// A step: 0 an edge, 1 the end, 15 refused; the edge number; the cursor after it.
#[repr(C)]
#[derive(Clone, Copy)]
pub struct StepNumbers {
    pub what: usize,
    pub edge: usize,
    pub cursor: CursorNumbers,
}

impl From<CursorNumbers> for Cursor {
    ghost from_gives = { λ numbers cursor. cursor ≡ cursor_of numbers };

    fn from(numbers: CursorNumbers) -> Cursor {
        Cursor {
            nodes: numbers.nodes,
            waiting: numbers.waiting,
            met: numbers.met,
            at: numbers.at,
            to: numbers.to,
        }
    }
}

impl From<Cursor> for CursorNumbers {
    ghost from_gives = { λ cursor numbers. numbers ≡ cursor_numbers cursor };

    fn from(cursor: Cursor) -> CursorNumbers {
        CursorNumbers {
            nodes: cursor.nodes,
            waiting: cursor.waiting,
            met: cursor.met,
            at: cursor.at,
            to: cursor.to,
        }
    }
}

impl From<RectNumbers> for Rect {
    ghost from_gives = { λ numbers rect. rect ≡ rect_named numbers };

    fn from(numbers: RectNumbers) -> Rect {
        Rect {
            min: Point {
                x: numbers.least_x,
                y: numbers.least_y,
            },
            max: Point {
                x: numbers.greatest_x,
                y: numbers.greatest_y,
            },
        }
    }
}

impl StepNumbers {
    // The numbers of a step from a cursor.
    fn new(step: Result<Option<Step>, Unsound>, cursor: CursorNumbers) -> StepNumbers
        ensures { result ≡ step_numbers step cursor }
    {
        match step {
            Ok(Some(step)) => StepNumbers {
                what: 0,
                edge: step.edge,
                cursor: CursorNumbers::from(step.after),
            },
            Ok(None) => StepNumbers {
                what: 1,
                edge: 0,
                cursor,
            },
            Err(unsound) => StepNumbers {
                what: usize::from(Refusal::from(unsound)),
                edge: 0,
                cursor,
            },
        }
    }
}

/// `walk::start`.
#[unsafe(no_mangle)]
pub extern "C" fn testing_start(n: usize) -> CursorNumbers
    ensures { Begun n (cursor_of result) }
{
    CursorNumbers::from(start(n))
}

/// `walk::next`, for the boxes that meet the rectangle where `holding` is 0, else for those that hold it. The cursor is as it was where no edge
/// comes.
#[unsafe(no_mangle)]
pub extern "C" fn testing_next(
    stack: &mut [usize],
    boxes: &[[i64; 4]],
    parts: &[[usize; 3]],
    edges: &[usize],
    n: usize,
    holding: usize,
    rect: RectNumbers,
    cursor: CursorNumbers,
) -> StepNumbers
    ensures { (step : Result (Option Step) Unsound) × Says n boxes.now parts.now edges.now (query_named (eqb holding 0) (rect_named rect)) stack.old (cursor_of cursor) stack.new step × (result ≡ step_numbers step cursor) }
{
    let rect = Rect::from(rect);
    let query = if holding == 0 {
        Query::Meeting(rect)
    } else {
        Query::Holding(rect)
    };
    // a walk looks at neither corners nor rings
    let plan = LentPlan {
        corners: &[],
        rings: &[],
        boxes,
        parts,
        edges,
        n,
        count: 0,
    };
    let step = next(stack, &plan, query, Cursor::from(cursor));
    StepNumbers::new(step, cursor)
}

/// `walk::place::place_of_edge`: the place, or the greatest number where it is refused.
#[unsafe(no_mangle)]
pub extern "C" fn testing_place_of_edge(
    corners: &[i64],
    rings: &[usize],
    boxes: &[[i64; 4]],
    parts: &[[usize; 3]],
    edges: &[usize],
    n: usize,
    count: usize,
    e: usize,
) -> usize
    ensures { (place : Result ℕ Unsound) × PlaceSays n count corners.now rings.now boxes.now parts.now edges.now e place × (result ≡ place_named place) }
{
    let plan = LentPlan {
        corners,
        rings,
        boxes,
        parts,
        edges,
        n,
        count,
    };
    place_of_edge(&plan, e).unwrap_or(usize::MAX)
}
