// Undo records: rows of the undo table, a corner and its old place (document 01, item 9, refusal 15).
ghost use Rattle.std.specs.Prelude.{◌≡◌, ◌^◌, ◌<◌, length, set};
ghost use Rattle.model.specs.Entries.{undo_row};
ghost use Rattle.corrections.specs.Records.{LatestSays};

use geom::Point;
use model::corner_named;
use rules::{State, Unsound};

/// An undo record: a corner, one of the plan's, and its old place, in range.
#[derive(Clone, Copy)]
pub(crate) struct Record {
    pub corner: usize,
    pub place: Point,
}

impl From<[i64; 3]> for Record {
    ghost use Rattle.std.specs.Prelude.{◌≡◌};
    ghost use Rattle.corrections.specs.Records.{record_in};

    ghost from_gives = { λ row latest. latest ≡ record_in row };

    fn from(row: [i64; 3]) -> Self {
        let [corner, x, y] = row;
        Self {
            corner: corner_named(corner),
            place: Point { x, y },
        }
    }
}

/// Puts a record of corner i and its old place at row k. No `From` makes the row: it would have to ask that the corner fits.
pub(crate) fn put_record(undo: &mut [[i64; 3]], k: usize, i: usize, old: Point)
    requires { (k < length undo.old) × (i < 2 ^ 63) }
    ensures { undo.new ≡ set undo.old k (undo_row (record { corner = i; place = old })) }
{
    undo[k] = [i as i64, old.x, old.y];
}

/// The latest record of a plan with something to undo. Refused with 15 (`Unsound`) where the undo table is shorter than the state says, or
/// the record names no corner or no place in range.
pub(crate) fn latest_record(state: State, undo: &[[i64; 3]]) -> Result<Record, Unsound>
    requires { 0 < state.undo_depth }
    ensures { LatestSays state undo.now result }
{
    if undo.len() < state.undo_depth {
        return Err(Unsound);
    }
    let latest = Record::from(undo[state.undo_depth - 1]);
    if state.corners <= latest.corner || !latest.place.in_range() {
        return Err(Unsound);
    }
    Ok(latest)
}
