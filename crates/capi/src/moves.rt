// Corrections for a server that keeps prepared plans: a corner moved and a move undone over tables that it lends (document 01, item 9).
ghost use Rattle.std.specs.Prelude.{◌≡◌};
ghost use Rattle.rules.specs.Numbers.{refusal_number};
ghost use Rattle.model.specs.declared.Call.TheVariants.{Move, Undo};
ghost use Rattle.capi.specs.Exports.{correction_numbers, Corrects};

use corrections::{move_corner, undo};
use geom::Point;
use rules::{Refusal, State};
use states::StateNumbers;

/// What a correction answers: 0 where it is accepted, or the refusal number; and the state that goes with the tables from now on, which
/// a refusal leaves as it was.
#[repr(C)]
#[derive(Clone, Copy)]
pub struct CorrectionAnswer {
    pub refusal: usize,
    pub state: StateNumbers,
}

impl CorrectionAnswer {
    // What a refused correction answers: its state stays as it was.
    fn refused(refusal: Refusal, state: StateNumbers) -> CorrectionAnswer
        ensures { result ≡ record { refusal = refusal_number refusal; state = state } }
    {
        CorrectionAnswer {
            refusal: usize::from(refusal),
            state,
        }
    }

    // What a correction from this state answers, in numbers.
    fn new(state: State, correction: Result<State, Refusal>) -> CorrectionAnswer
        ensures { result ≡ correction_numbers state correction }
    {
        match correction {
            Ok(next) => CorrectionAnswer {
                refusal: 0,
                state: StateNumbers::from(next),
            },
            Err(refusal) => CorrectionAnswer::refused(refusal, StateNumbers::from(state)),
        }
    }
}

/// Moves a corner to (x, y): `corrections::move_corner` in numbers.
///
/// Refused with 12, 5, 6, 13 or 15 in this order, and with 15 before all else where the numbers name no state; then no table is written.
#[unsafe(no_mangle)]
pub extern "C" fn findspot_move(
    state: StateNumbers,
    corners: &mut [i64],
    rings: &[usize],
    boxes: &mut [[i64; 4]],
    parts: &[[usize; 3]],
    edges: &[usize],
    undo: &mut [[i64; 3]],
    corner: usize,
    x: i64,
    y: i64,
) -> CorrectionAnswer
    ensures { Corrects (Move corner (record { x = x; y = y })) state corners.old rings.now boxes.old parts.now edges.now undo.old corners.new boxes.new undo.new result }
{
    let Ok(known) = State::try_from(state) else {
        return CorrectionAnswer::refused(Refusal::Unsound, state);
    };
    let place = Point { x, y };
    let correction = move_corner(
        known, corners, rings, boxes, parts, edges, undo, corner, place,
    );
    CorrectionAnswer::new(known, correction)
}

/// Takes back the latest move: `corrections::undo` in numbers.
///
/// Refused with 12, 14 or 15 in this order, and with 15 before all else where the numbers name no state; then no table is written.
#[unsafe(no_mangle)]
pub extern "C" fn findspot_undo(
    state: StateNumbers,
    corners: &mut [i64],
    rings: &[usize],
    boxes: &mut [[i64; 4]],
    parts: &[[usize; 3]],
    edges: &[usize],
    records: &[[i64; 3]],
) -> CorrectionAnswer
    ensures { Corrects Undo state corners.old rings.now boxes.old parts.now edges.now records.now corners.new boxes.new records.now result }
{
    let Ok(known) = State::try_from(state) else {
        return CorrectionAnswer::refused(Refusal::Unsound, state);
    };
    let correction = undo(known, corners, rings, boxes, parts, edges, records);
    CorrectionAnswer::new(known, correction)
}
