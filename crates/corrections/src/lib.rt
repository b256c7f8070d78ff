// Corner corrections with undo on a prepared plan (document 01, item 9, "The correction book", refusals 5, 6 and 12 to 15).
#![tactic(auto)]

ghost use Rattle.std.specs.Prelude.{◌≡◌, List, ℕ, ◌<◌};
ghost use Rattle.model.specs.declared.Call.TheVariants.{Move, Undo};
ghost use Rattle.model.specs.Prepared.{prepared_of};
ghost use Rattle.model.specs.Steps.{at_depth, Step};
ghost use Rattle.corrections.specs.Answering.{answered, state_after};
ghost use Rattle.corrections.specs.TakingBack.{TakenBack};

mod records;

use geom::Point;
use model::{move_early, undo_early};
use placing::correct;
use records::{latest_record, put_record};
use rules::{Refusal, State};

// The state with another number of undo records.
fn at_depth(state: State, depth: usize) -> State
    ensures { result ≡ at_depth state depth }
{
    State {
        undo_depth: depth,
        ..state
    }
}

/// Moves a corner to a new place and records the corner with its old place; a move to the same place records too.
///
/// Refused, in this order, with 12 (`PlanOutOfRange`) on a plan that is out of range, 5 (`NoSuchCorner`), 6 (`PlaceOutOfRange`), 13
/// (`UndoFull`) where the records fill the undo table or are 65,536, and 15 (`Unsound`), which sound tables never get. A refusal changes
/// nothing: all that can refuse is tested before the first write.
///
/// Otherwise the corner stands at the new place, one undo record is made, and the boxes above the corner's two edges are made anew, each
/// the smallest round its edges, so that they narrow as well as widen. Nothing else is written.
///
/// The cost is that of two walks to the corner's edges, which enter only boxes that hold the edge, and of two refitted paths of at most 18
/// boxes: on a plan of a million corners a few hundred entries. Where very many boxes hold the edge the walks are longer, at worst, with
/// all corners at one place, as long as the plan.
pub fn move_corner(
    state: State,
    corners: &mut [i64],
    rings: &[usize],
    boxes: &mut [[i64; 4]],
    parts: &[[usize; 3]],
    edges: &[usize],
    undo: &mut [[i64; 3]],
    corner: usize,
    place: Point,
) -> Result<State, Refusal>
    ensures { (polygons : List ℕ) → Step (Move corner place) (prepared_of state corners.old rings.now polygons boxes.old parts.now edges.now undo.old) (answered result) (prepared_of (state_after state result) corners.new rings.now polygons boxes.new parts.now edges.now undo.new) }
{
    move_early(state, undo.len(), corner, place)?;
    let old = correct(
        corners,
        rings,
        boxes,
        parts,
        edges,
        state.corners,
        state.rings,
        corner,
        place,
    );
    put_record(undo, state.undo_depth, corner, old?);
    Ok(at_depth(state, state.undo_depth + 1))
}

// Puts a corner back at its place, with one undo record fewer.
fn take_back(
    state: State,
    corners: &mut [i64],
    rings: &[usize],
    boxes: &mut [[i64; 4]],
    parts: &[[usize; 3]],
    edges: &[usize],
    corner: usize,
    place: Point,
) -> Result<State, Refusal>
    requires { 0 < state.undo_depth }
    ensures { TakenBack state rings.now parts.now edges.now corner place corners.old boxes.old corners.new boxes.new result }
{
    correct(
        corners,
        rings,
        boxes,
        parts,
        edges,
        state.corners,
        state.rings,
        corner,
        place,
    )?;
    Ok(at_depth(state, state.undo_depth - 1))
}

/// Takes back the latest record: its corner takes that place again, and the record's space serves again.
///
/// Refused, in this order, with 12 (`PlanOutOfRange`) on a plan that is out of range, 14 (`NothingToUndo`), and 15 (`Unsound`), which
/// sound tables never get. A refusal changes nothing. The undo table is never written. The boxes are made anew, and the cost is, as for a
/// move.
pub fn undo(
    state: State,
    corners: &mut [i64],
    rings: &[usize],
    boxes: &mut [[i64; 4]],
    parts: &[[usize; 3]],
    edges: &[usize],
    undo: &[[i64; 3]],
) -> Result<State, Refusal>
    ensures { (polygons : List ℕ) → Step Undo (prepared_of state corners.old rings.now polygons boxes.old parts.now edges.now undo.now) (answered result) (prepared_of (state_after state result) corners.new rings.now polygons boxes.new parts.now edges.now undo.now) }
{
    undo_early(state)?;
    let latest = latest_record(state, undo)?;
    take_back(
        state,
        corners,
        rings,
        boxes,
        parts,
        edges,
        latest.corner,
        latest.place,
    )
}
