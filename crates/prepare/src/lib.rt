// Preparing a plan: its refusals, and the lent tables filled (document 01, items 5, 6 and 9; `Prepared::new` of src/prepared.rs).
#![tactic(auto)]

ghost use Rattle.prepare.specs.Tables.{Prepared};

mod refusals;
mod tables;

use plans::Plan;
use refusals::answer;
use rules::{Refusal, State};
use tables::{put_index, put_plan};

/// A plan just prepared.
#[derive(Clone, Copy)]
pub struct Ready {
    /// The state that goes with the tables.
    pub state: State,
    /// How many nodes its index has; a plan that is out of range has none.
    pub nodes: Option<usize>,
}

/// How many entries each lent table has: numbers of corners, rings, polygons and edges, rows of boxes and parts.
#[derive(Clone, Copy)]
pub struct Room {
    pub corners: usize,
    pub rings: usize,
    pub polygons: usize,
    pub boxes: usize,
    pub parts: usize,
    pub edges: usize,
}

/// Prepares a plan.
///
/// Refused with 4 (`TooMany`) or else 3 (`Uneven`) where `Plan::judge` refuses the plan, else with 11 (`TableTooShort`) at the first
/// table that is too short: corners (two numbers a corner), rings, polygons (none for a tree), nodes (N(n) rows of boxes and of parts),
/// edges (n). A plan with a corner out of range needs neither nodes nor edges. A refusal leaves every table as it was.
///
/// Otherwise the tables hold the plan from their start: the corners, the end of each ring and, for a list, the end of each polygon's
/// rings. With every corner in range the index stands in boxes, parts and edges, and N(n) is reported; else these three are as they were
/// and `None` is reported. Nothing else is written.
pub fn prepare(
    plan: &Plan<'_>,
    corners: &mut [i64],
    rings: &mut [usize],
    polygons: &mut [usize],
    boxes: &mut [[i64; 4]],
    parts: &mut [[usize; 3]],
    edges: &mut [usize],
) -> Result<Ready, Refusal>
    ensures { Prepared plan.now (record { corners = corners.old; rings = rings.old; polygons = polygons.old; boxes = boxes.old; parts = parts.old; edges = edges.old }) (record { corners = corners.new; rings = rings.new; polygons = polygons.new; boxes = boxes.new; parts = parts.new; edges = edges.new }) result }
{
    let room = Room {
        corners: corners.len(),
        rings: rings.len(),
        polygons: polygons.len(),
        boxes: boxes.len(),
        parts: parts.len(),
        edges: edges.len(),
    };
    let ready = answer(plan, room)?;
    put_plan(plan, corners, rings, polygons);
    put_index(ready.state, corners, rings, boxes, parts, edges);
    Ok(ready)
}
