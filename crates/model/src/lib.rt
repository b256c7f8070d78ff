// The calls on a prepared plan and their answers, and what of a correction is settled before a table is read (document 01, item 9, "From
// the state" and "The correction book"). What the calls promise, the correction book and demand 3 stand in specs/ and proofs/.
#![tactic(auto)]

ghost use Rattle.std.specs.Prelude.{◌≡◌, true};
ghost use Rattle.model.specs.Numbers.{answer_of, answer_number};
ghost use Rattle.model.specs.Coded.{call_of};
ghost use Rattle.model.specs.Entries.{is_full, corner_named};
ghost use Rattle.model.specs.Steps.{settling, move_early, undo_early};

use geom::Point;
use rules::{Location, Refusal, Reply, State, reply_number};

/// The most undo records, however long the undo table is.
pub const MAX_UNDO: usize = 65536;

// A look-up is two variants, not one with a `Spot`: the specs and theorems give each grid its line, with a range and a reply of its own.

/// A call on a prepared plan, with the numbers that it names.
#[derive(Clone, Copy)]
pub enum Call {
    /// Puts a corner at a new place.
    Move(usize, Point),
    /// Takes back the latest record.
    Undo,
    /// Where a point lies.
    Locate(Point),
    /// Where a point of the half-grid lies, given doubled.
    LocateDoubled(Point),
}

// The call that a row of four numbers codes: 0, corner, x, y a move; 1 an undo; 2, any, x, y a look-up; any other first number a look-up
// on the half-grid. Every row is a call.
impl From<[i64; 4]> for Call {
    ghost from_gives = { λ row call. call ≡ call_of row };

    fn from(row: [i64; 4]) -> Call {
        let [kind, corner, x, y] = row;
        let point = Point { x, y };
        match kind {
            0 => Call::Move(corner_named(corner), point),
            1 => Call::Undo,
            2 => Call::Locate(point),
            _ => Call::LocateDoubled(point),
        }
    }
}

/// What a call answers.
#[derive(Clone, Copy)]
pub enum Answer {
    At(Location),
    Accepted,
    Refused(Refusal),
}

// A look-up's reply as an answer.
impl From<Reply> for Answer {
    ghost from_gives = { λ reply answer. answer ≡ answer_of reply };

    fn from(reply: Reply) -> Answer {
        match reply {
            Ok(location) => Answer::At(location),
            Err(refusal) => Answer::Refused(refusal),
        }
    }
}

// An answer as one signed number: 0 outside, 1 inside, 2 on the boundary, 3 accepted, or minus the refusal's number.
impl From<Answer> for i64 {
    ghost from_gives = { λ answer number. number ≡ answer_number answer };

    fn from(answer: Answer) -> i64 {
        match answer {
            Answer::At(location) => reply_number(Ok(location)),
            Answer::Accepted => 3,
            Answer::Refused(refusal) => reply_number(Err(refusal)),
        }
    }
}

/// What a move of corner i to a new place is refused for by the state and the undo table's length: 12, 5, 6 and 13, in that order.
pub fn move_early(state: State, lent: usize, i: usize, place: Point) -> Result<(), Refusal>
    ensures { settling result ≡ move_early state lent true i place }
{
    if state.out_of_range {
        return Err(Refusal::PlanOutOfRange);
    }
    if state.corners <= i {
        return Err(Refusal::NoSuchCorner);
    }
    if !place.in_range() {
        return Err(Refusal::PlaceOutOfRange);
    }
    if is_full(lent, state.undo_depth) {
        return Err(Refusal::UndoFull);
    }
    Ok(())
}

/// What an undo is refused for by the state: 12 and 14, in that order.
pub fn undo_early(state: State) -> Result<(), Refusal>
    ensures { settling result ≡ undo_early state }
{
    if state.out_of_range {
        return Err(Refusal::PlanOutOfRange);
    }
    if state.undo_depth == 0 {
        return Err(Refusal::NothingToUndo);
    }
    Ok(())
}

// Whether so many records leave no room in an undo table lent with that length.
fn is_full(lent: usize, depth: usize) -> bool
    ensures { result ≡ is_full lent depth }
{
    lent <= depth || MAX_UNDO <= depth
}

/// The corner that a signed number names. One below zero names none: it gives the greatest number of 64 bits, which no plan reaches.
pub fn corner_named(number: i64) -> usize
    ensures { result ≡ corner_named number }
{
    usize::try_from(number).unwrap_or(usize::MAX)
}
