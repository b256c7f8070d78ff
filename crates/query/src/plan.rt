// Look-ups in a whole plan: as it is handed in, and in the tables of a prepared one (document 01, items 4, 6, 7 and 9).
ghost use Rattle.std.specs.Prelude.{◌≡◌};
ghost use Rattle.rules.specs.Plans.{plan_verdict, answer};
ghost use Rattle.rules.specs.Spots.{spot_in_range, spot_reply};
ghost use Rattle.rules.specs.Tables.{plan_of};
ghost use Rattle.query.specs.Calls.{PlanShown, SpotShown, LookedUp};

use geom::Point;
use outlines::parity::parity_reply;
use outlines::rows::Form;
use outlines::shapes::list_reply;
use plans::{Plan, all_in_range};
use rules::{Kind, Location, Refusal, Reply, Spot, State, polygons_in};

// By the plan's kind. A tree's polygon table is not looked at. A function of its own in the machine's code too: in one with the half-grid's
// loop both would keep what each edge needs in memory and not in registers.
#[inline(never)]
fn kind_reply(
    form: Form,
    kind: Kind,
    coordinates: &[i64],
    rings: &[usize],
    polygons: &[usize],
    p: Point,
) -> Reply
    ensures { PlanShown form kind coordinates.now rings.now polygons.now p result }
{
    match kind {
        Kind::Polygons => list_reply(form, coordinates, rings, polygons, p),
        Kind::Tree => parity_reply::<false>(form, coordinates, rings, p),
    }
}

// On the grid by the plan's kind, on the half-grid by all its edges. A part of each caller in the machine's code: where the form and the grid are
// known, the loop of the half-grid takes 5 to 30 hundredths less time.
#[inline(always)]
fn spot_reply(
    form: Form,
    kind: Kind,
    coordinates: &[i64],
    rings: &[usize],
    polygons: &[usize],
    spot: Spot,
) -> Reply
    ensures { SpotShown form kind coordinates.now rings.now polygons.now spot result }
{
    match spot {
        Spot::OnGrid(p) => kind_reply(form, kind, coordinates, rings, polygons, p),
        Spot::Doubled(p) => parity_reply::<true>(form, coordinates, rings, p),
    }
}

/// Where a spot lies in a plan as it is handed in.
///
/// Refused with 4 (`TooMany`) or else 3 (`Uneven`) where `Plan::judge` refuses the plan, whatever the spot is. Otherwise the place; a
/// spot out of range, or a plan with any corner out of range, gives outside.
pub fn locate(plan: &Plan<'_>, spot: Spot) -> Reply
    ensures { result ≡ answer (plan_verdict plan.now) (spot_reply plan.now spot) }
{
    plan.judge()?;
    if !spot.in_range() || !all_in_range(plan.coordinates) {
        return Ok(Location::Outside);
    }
    spot_reply(
        Form::Lengths,
        plan.kind,
        plan.coordinates,
        plan.lengths,
        plan.counts,
        spot,
    )
}

/// Where a spot lies in the plan that prepared tables hold, ring by ring: corners, where each ring ends, and where each polygon's rings end.
///
/// Outside, with no table read, where the spot or the plan is out of range. On sound tables the plan's reply. On other tables some place, or
/// 15 (`Unsound`) where a table is shorter than the state says or an entry points outside it.
pub fn locate_by_rings(
    state: State,
    corners: &[i64],
    rings: &[usize],
    polygons: &[usize],
    spot: Spot,
) -> Reply
    ensures { LookedUp state corners.now rings.now polygons.now (spot_in_range spot) (spot_reply (plan_of state corners.now rings.now polygons.now) spot) result }
{
    let kind = state.kind;
    let n = state.corners;
    let r = state.rings;
    let q = polygons_in(kind, state.polygons);
    if state.out_of_range || !spot.in_range() {
        return Ok(Location::Outside);
    }
    if (corners.len() / 2 < n) | ((rings.len() < r) | (polygons.len() < q)) {
        return Err(Refusal::Unsound);
    }
    spot_reply(
        Form::Ends,
        kind,
        &corners[..2 * n],
        &rings[..r],
        &polygons[..q],
        spot,
    )
}
