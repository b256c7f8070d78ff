// One call on a prepared plan, whichever it is, and a list of them.
ghost use Rattle.std.specs.Prelude.{◌≡◌, ◌≤◌, length};
ghost use Rattle.model.specs.Prepared.{prepared_of};
ghost use Rattle.model.specs.Steps.{Step};
ghost use Rattle.corrections.specs.Answering.{answered, state_after};
ghost use Rattle.replay.specs.Replays.{Called};

use corrections::{move_corner, undo as take_back};
use model::{Answer, Call};
use prepared::locate::{Tables, locate};
use rules::{Refusal, Spot, State};

/// What a call answers, and the state that goes with the tables from now on.
#[derive(Clone, Copy)]
pub struct Done {
    pub answer: Answer,
    pub state: State,
}

impl Done {
    // A correction leaves its state where it is accepted, and the state as it was where it is refused.
    fn corrected(state: State, correction: Result<State, Refusal>) -> Done
        ensures { result ≡ record { answer = answered correction; state = state_after state correction } }
    {
        match correction {
            Ok(next) => Done {
                answer: Answer::Accepted,
                state: next,
            },
            Err(refusal) => Done {
                answer: Answer::Refused(refusal),
                state,
            },
        }
    }
}

/// Runs one call: `move_corner`, `undo`, or `locate` on either grid, with its refusals. What is returned is its answer and the state that
/// goes with the tables from now on.
pub fn run_call(
    state: State,
    corners: &mut [i64],
    rings: &[usize],
    polygons: &[usize],
    boxes: &mut [[i64; 4]],
    parts: &[[usize; 3]],
    edges: &[usize],
    undo: &mut [[i64; 3]],
    call: Call,
) -> Done
    ensures { Step call (prepared_of state corners.old rings.now polygons.now boxes.old parts.now edges.now undo.old) result.answer (prepared_of result.state corners.new rings.now polygons.now boxes.new parts.now edges.now undo.new) }
{
    let spot = match call {
        Call::Move(corner, place) => {
            return Done::corrected(
                state,
                move_corner(
                    state, corners, rings, boxes, parts, edges, undo, corner, place,
                ),
            );
        }
        Call::Undo => {
            return Done::corrected(
                state,
                take_back(state, corners, rings, boxes, parts, edges, undo),
            );
        }
        Call::Locate(p) => Spot::OnGrid(p),
        Call::LocateDoubled(p) => Spot::Doubled(p),
    };
    let tables = Tables {
        corners,
        rings,
        polygons,
        boxes,
        parts,
        edges,
    };
    Done {
        answer: Answer::from(locate(state, &tables, spot)),
        state,
    }
}

/// Runs coded calls one after another, and writes their coded answers. The answer table has room for them.
pub(crate) fn run_calls(
    state: State,
    corners: &mut [i64],
    rings: &[usize],
    polygons: &[usize],
    boxes: &mut [[i64; 4]],
    parts: &[[usize; 3]],
    edges: &[usize],
    undo: &mut [[i64; 3]],
    calls: &[[i64; 4]],
    answers: &mut [i64],
) -> State
    requires { length calls.now ≤ length answers.old }
    ensures { Called calls.now (prepared_of state corners.old rings.now polygons.now boxes.old parts.now edges.now undo.old) answers.old (prepared_of result corners.new rings.now polygons.now boxes.new parts.now edges.now undo.new) answers.new }
{
    let mut now = state;
    for (k, &row) in calls.iter().enumerate() {
        let call = Call::from(row);
        let done = run_call(
            now, corners, rings, polygons, boxes, parts, edges, undo, call,
        );
        answers[k] = i64::from(done.answer);
        now = done.state;
    }
    now
}
