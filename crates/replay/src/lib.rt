// A list of calls replayed: a plan prepared, and moves, undos and look-ups run on it one after another, each given what the last one left.
// What is promised is demand 3 of document 01, for code that runs.
#![tactic(auto)]

ghost use Rattle.std.specs.Prelude.{◌≡◌, Err};
ghost use Rattle.replay.specs.declared.ReplayRefusal.TheVariants.{Plan};
ghost use Rattle.replay.specs.Replays.{Replays, replay_number};

pub mod calls;

use calls::run_calls;
use plans::Plan;
use prepare::prepare;
use rules::{Refusal, State};

/// Why no call was run.
#[derive(Clone, Copy)]
pub enum ReplayRefusal {
    /// 4, 3, or 11 and its table: the plan cannot be prepared.
    Plan(Refusal),
    /// 11: the answer table has fewer places than there are calls.
    AnswersTooShort,
}

impl From<Refusal> for ReplayRefusal {
    ghost from_gives = { λ refusal given. given ≡ Plan refusal };

    fn from(refusal: Refusal) -> ReplayRefusal {
        ReplayRefusal::Plan(refusal)
    }
}

// The number of the refusal; 11 too where the answer table is too short, which is none of the tables that `Refusal::TableTooShort` names.
impl From<ReplayRefusal> for usize {
    ghost from_gives = { λ refusal number. number ≡ replay_number (Err refusal) };

    fn from(refusal: ReplayRefusal) -> usize {
        match refusal {
            ReplayRefusal::Plan(why) => usize::from(why),
            ReplayRefusal::AnswersTooShort => 11,
        }
    }
}

/// Prepares a plan and runs a list of calls on it.
///
/// A call is a row of four numbers: 0, corner, x, y moves a corner; 1 takes back the latest move; 2, any, x, y looks a point up; any other first
/// number looks a point of the half-grid up. Call k's answer goes to place k of the answer table: 0 outside, 1 inside, 2 on the boundary,
/// 3 accepted, or minus the refusal number. Places after the last call stay as they were.
///
/// Refused, in this order, with the plan's 4 or 3, with 11 (`AnswersTooShort`) where the answer table is too short, and with 11 and its table
/// as `prepare` is; then nothing lent is written.
pub fn replay(
    plan: &Plan<'_>,
    corners: &mut [i64],
    rings: &mut [usize],
    polygons: &mut [usize],
    boxes: &mut [[i64; 4]],
    parts: &mut [[usize; 3]],
    edges: &mut [usize],
    undo: &mut [[i64; 3]],
    calls: &[[i64; 4]],
    answers: &mut [i64],
) -> Result<State, ReplayRefusal>
    ensures { Replays plan.now (record { tables = record { corners = corners.old; rings = rings.old; polygons = polygons.old; boxes = boxes.old; parts = parts.old; edges = edges.old }; undo = undo.old; answers = answers.old }) (record { tables = record { corners = corners.new; rings = rings.new; polygons = polygons.new; boxes = boxes.new; parts = parts.new; edges = edges.new }; undo = undo.new; answers = answers.new }) calls.now result }
{
    plan.judge()?;
    if answers.len() < calls.len() {
        return Err(ReplayRefusal::AnswersTooShort);
    }
    let ready = prepare(plan, corners, rings, polygons, boxes, parts, edges)?;
    Ok(run_calls(
        ready.state,
        corners,
        rings,
        polygons,
        boxes,
        parts,
        edges,
        undo,
        calls,
        answers,
    ))
}
