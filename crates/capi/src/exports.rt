// The exports for a server that keeps prepared plans: tables as slices that it lends, a state as six numbers, answers as numbers
// (document 01, items 6 to 8). None asks anything of its caller; tables that are lent to a look-up are only read.
ghost use Rattle.std.specs.Prelude.{◌≡◌};
ghost use Rattle.geom.specs.Range.{in_range, in_doubled_range};
ghost use Rattle.rules.specs.Numbers.{kind_named};
ghost use Rattle.rules.specs.Plans.{plan_reply, plan_half_reply};
ghost use Rattle.rules.specs.Spots.{spot_in_range, spot_reply};
ghost use Rattle.rules.specs.Tables.{plan_of};
ghost use Rattle.query.specs.Calls.{LookedUp};
ghost use Rattle.prepared.specs.Calls.{SpotLooked};
ghost use Rattle.prepare.specs.Tables.{Tables as SixTables, Prepared};
ghost use Rattle.prepared.specs.Firsts.{points_verdict, FirstSays};
ghost use Rattle.states.specs.States.{state_named, Replied};
ghost use Rattle.capi.specs.Exports.{first_numbers, prepare_numbers, unnamed_first, LooksUp, LooksUpByRings, Listed, PrepareSays};

use geom::Point;
use plans::Plan;
use prepare::{Ready, prepare};
use prepared::first::{first_not_outside, judge_points};
use prepared::locate::{Tables, locate};
use query::locate_by_rings;
use rules::{Kind, Refusal, Spot, State, reply_number};
use states::StateNumbers;

/// What preparing answers: the refusal number or 0, the table that refusal 11 names or 0, the number of nodes, and the state (zeros
/// where it is refused).
#[repr(C)]
#[derive(Clone, Copy, Default)]
pub struct PrepareAnswer {
    pub refusal: usize,
    pub table: usize,
    pub nodes: usize,
    pub state: StateNumbers,
}

/// What a list of points is answered: the refusal number or 0, 1 where a point is not outside, and the place of the first.
#[repr(C)]
#[derive(Clone, Copy, Default)]
pub struct FirstAnswer {
    pub refusal: usize,
    pub found: usize,
    pub place: usize,
}

// What preparing answers, in numbers.
impl From<Result<Ready, Refusal>> for PrepareAnswer {
    ghost from_gives = { λ preparing answer. answer ≡ prepare_numbers preparing };

    fn from(preparing: Result<Ready, Refusal>) -> PrepareAnswer {
        match preparing {
            Ok(ready) => PrepareAnswer {
                refusal: 0,
                table: 0,
                nodes: ready.nodes.unwrap_or(0),
                state: StateNumbers::from(ready.state),
            },
            Err(refusal) => PrepareAnswer {
                refusal: usize::from(refusal),
                table: refusal.detail(),
                ..PrepareAnswer::default()
            },
        }
    }
}

// What a list of points is answered, in numbers.
impl From<Result<Option<usize>, Refusal>> for FirstAnswer {
    ghost from_gives = { λ first answer. answer ≡ first_numbers first };

    fn from(first: Result<Option<usize>, Refusal>) -> FirstAnswer {
        match first {
            Ok(Some(place)) => FirstAnswer {
                refusal: 0,
                found: 1,
                place,
            },
            Ok(None) => FirstAnswer::default(),
            Err(refusal) => FirstAnswer {
                refusal: usize::from(refusal),
                ..FirstAnswer::default()
            },
        }
    }
}

/// Prepares a plan of kind 0 (a list) or 1 (a tree) in the tables that it is lent: `prepare::prepare` in numbers.
///
/// Refused with 15 where the kind is another number, before all else, and then with 4, 3, or 11 and its table; no table is written then.
#[unsafe(no_mangle)]
pub extern "C" fn findspot_prepare(
    kind: usize,
    coordinates: &[i64],
    lengths: &[usize],
    counts: &[usize],
    corners: &mut [i64],
    rings: &mut [usize],
    polygons: &mut [usize],
    boxes: &mut [[i64; 4]],
    parts: &mut [[usize; 3]],
    edges: &mut [usize],
) -> PrepareAnswer
    ensures { PrepareSays (kind_named kind) (λ k preparing. Prepared (record { kind = k; coordinates = coordinates.now; lengths = lengths.now; counts = counts.now }) (record { corners = corners.old; rings = rings.old; polygons = polygons.old; boxes = boxes.old; parts = parts.old; edges = edges.old }) (record { corners = corners.new; rings = rings.new; polygons = polygons.new; boxes = boxes.new; parts = parts.new; edges = edges.new }) preparing) (◌≡◌ {A = SixTables} (record { corners = corners.new; rings = rings.new; polygons = polygons.new; boxes = boxes.new; parts = parts.new; edges = edges.new }) (record { corners = corners.old; rings = rings.old; polygons = polygons.old; boxes = boxes.old; parts = parts.old; edges = edges.old })) result }
{
    let Ok(known) = Kind::try_from(kind) else {
        return PrepareAnswer::from(Err(Refusal::Unsound));
    };
    let plan = Plan {
        kind: known,
        coordinates,
        lengths,
        counts,
    };
    PrepareAnswer::from(prepare(&plan, corners, rings, polygons, boxes, parts, edges))
}

// Where a spot lies, through the boxes, as a number: minus 15 where the numbers name no state. It is a part of each export in the
// machine's code, which then knows the spot's grid: ring by ring a function of its own takes up to half more time on the half-grid.
#[inline(always)]
fn look_up(numbers: StateNumbers, tables: &Tables<'_>, spot: Spot) -> i64
    ensures { Replied (state_named numbers) (λ s reply. SpotLooked s tables.now spot reply) result }
{
    match State::try_from(numbers) {
        Ok(state) => reply_number(locate(state, tables, spot)),
        Err(_) => reply_number(Err(Refusal::Unsound)),
    }
}

// The same ring by ring.
#[inline(always)]
fn look_up_by_rings(
    numbers: StateNumbers,
    corners: &[i64],
    rings: &[usize],
    polygons: &[usize],
    spot: Spot,
) -> i64
    ensures { Replied (state_named numbers) (λ s reply. LookedUp s corners.now rings.now polygons.now (spot_in_range spot) (spot_reply (plan_of s corners.now rings.now polygons.now) spot) reply) result }
{
    match State::try_from(numbers) {
        Ok(state) => reply_number(locate_by_rings(state, corners, rings, polygons, spot)),
        Err(_) => reply_number(Err(Refusal::Unsound)),
    }
}

/// Where (x, y) lies, through the boxes: 0 outside, 1 inside, 2 on the boundary, or -15 where the numbers name no state, a
/// table is shorter than the state says, or a number leads outside its table.
#[unsafe(no_mangle)]
pub extern "C" fn findspot_locate(
    state: StateNumbers,
    corners: &[i64],
    rings: &[usize],
    polygons: &[usize],
    boxes: &[[i64; 4]],
    parts: &[[usize; 3]],
    edges: &[usize],
    x: i64,
    y: i64,
) -> i64
    ensures { LooksUp in_range plan_reply state corners.now rings.now polygons.now boxes.now parts.now edges.now (record { x = x; y = y }) result }
{
    // By name, as wherever tables or plans are put together: unnamed in a call, rings, polygons and edges could be exchanged unseen.
    let tables = Tables {
        corners,
        rings,
        polygons,
        boxes,
        parts,
        edges,
    };
    look_up(state, &tables, Spot::OnGrid(Point { x, y }))
}

/// Where the point with these doubled coordinates lies on the half-grid, through the boxes; numbers as `findspot_locate`.
#[unsafe(no_mangle)]
pub extern "C" fn findspot_locate_doubled(
    state: StateNumbers,
    corners: &[i64],
    rings: &[usize],
    polygons: &[usize],
    boxes: &[[i64; 4]],
    parts: &[[usize; 3]],
    edges: &[usize],
    x: i64,
    y: i64,
) -> i64
    ensures { LooksUp in_doubled_range plan_half_reply state corners.now rings.now polygons.now boxes.now parts.now edges.now (record { x = x; y = y }) result }
{
    let tables = Tables {
        corners,
        rings,
        polygons,
        boxes,
        parts,
        edges,
    };
    look_up(state, &tables, Spot::Doubled(Point { x, y }))
}

/// Where (x, y) lies, ring by ring; numbers as `findspot_locate`.
#[unsafe(no_mangle)]
pub extern "C" fn findspot_locate_by_rings(
    state: StateNumbers,
    corners: &[i64],
    rings: &[usize],
    polygons: &[usize],
    x: i64,
    y: i64,
) -> i64
    ensures { LooksUpByRings in_range plan_reply state corners.now rings.now polygons.now (record { x = x; y = y }) result }
{
    let spot = Spot::OnGrid(Point { x, y });
    look_up_by_rings(state, corners, rings, polygons, spot)
}

/// Where the point with these doubled coordinates lies on the half-grid, ring by ring; numbers as `findspot_locate`.
#[unsafe(no_mangle)]
pub extern "C" fn findspot_locate_doubled_by_rings(
    state: StateNumbers,
    corners: &[i64],
    rings: &[usize],
    polygons: &[usize],
    x: i64,
    y: i64,
) -> i64
    ensures { LooksUpByRings in_doubled_range plan_half_reply state corners.now rings.now polygons.now (record { x = x; y = y }) result }
{
    let spot = Spot::Doubled(Point { x, y });
    look_up_by_rings(state, corners, rings, polygons, spot)
}

// What a list of points is answered where the numbers name no state: its own 4 or 3, else 15.
fn unnamed_first(points: &[i64]) -> Result<Option<usize>, Refusal>
    ensures { result ≡ unnamed_first (points_verdict points.now) }
{
    judge_points(points)?;
    Err(Refusal::Unsound)
}

/// The first of the listed points x, y, x, y, .. that is not outside, through the boxes. Refused, in this order, with 4 or 3 where the list is
/// too long or a y is missing, and with 15 where the numbers name no state or a look-up is.
#[unsafe(no_mangle)]
pub extern "C" fn findspot_first_not_outside(
    state: StateNumbers,
    corners: &[i64],
    rings: &[usize],
    polygons: &[usize],
    boxes: &[[i64; 4]],
    parts: &[[usize; 3]],
    edges: &[usize],
    points: &[i64],
) -> FirstAnswer
    ensures { Listed (state_named state) points.now (λ s first. FirstSays s corners.now rings.now polygons.now boxes.now parts.now edges.now points.now first) result }
{
    let Ok(known) = State::try_from(state) else {
        return FirstAnswer::from(unnamed_first(points));
    };
    let tables = Tables {
        corners,
        rings,
        polygons,
        boxes,
        parts,
        edges,
    };
    FirstAnswer::from(first_not_outside(known, &tables, points))
}
