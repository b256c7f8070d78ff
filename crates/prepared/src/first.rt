// The first point of a list that is not outside (document 01, item 8; `first_not_outside` of src/query.rs).
ghost use Rattle.prepared.specs.Firsts.{PointsJudged, FirstIn};

use crate::locate::{Tables, locate};
use plans::corner_at;
use rules::{Location, Refusal, Spot, State};

/// The most points of a list.
pub const MAX_POINTS: usize = 65536;

/// Refusals 4 and 3 of a list of points x, y, x, y, .., or that it is accepted: 4 (`TooMany`) where there are more than 65,536 points, an odd list
/// counted as half its length, rounded down; else 3 (`Uneven`) where a y is missing.
pub fn judge_points(points: &[i64]) -> Result<(), Refusal>
    ensures { PointsJudged points.now result }
{
    if MAX_POINTS < points.len() / 2 {
        return Err(Refusal::TooMany);
    }
    if points.len() % 2 == 1 {
        return Err(Refusal::Uneven);
    }
    Ok(())
}

/// The place, from 0, of the earliest point of a list x, y, x, y, .. that is not outside, or that all of them are outside.
///
/// Refused with 4 (`TooMany`) where there are more than 65,536 points, else with 3 (`Uneven`) where a y is missing, on any plan. On a
/// plan out of range every point is outside. Refused with 15 (`Unsound`) where a look-up is: never on sound tables.
pub fn first_not_outside(
    state: State,
    tables: &Tables<'_>,
    points: &[i64],
) -> Result<Option<usize>, Refusal>
    ensures { FirstIn state tables.now points.now result }
{
    judge_points(points)?;
    for k in 0..points.len() / 2 {
        let spot = Spot::OnGrid(corner_at(points, k));
        let location = locate(state, tables, spot)?;
        if location != Location::Outside {
            return Ok(Some(k));
        }
    }
    Ok(None)
}
