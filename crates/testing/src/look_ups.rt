// Look-ups along a given ray, and in a plan as it was handed in.
ghost use Rattle.std.specs.Prelude.{◌≡◌, eqb};
ghost use Rattle.geom.specs.Range.{in_range, in_doubled_range};
ghost use Rattle.rules.specs.Numbers.{reply_number};
ghost use Rattle.rules.specs.Plans.{plan_verdict, plan_reply, plan_half_reply, answer};
ghost use Rattle.rules.specs.Tables.{plan_of};
ghost use Rattle.rules.specs.Spots.{spot_reply};
ghost use Rattle.prepared.specs.Calls.{Looked, SpotLooked};
ghost use Rattle.states.specs.States.{state_named, Replied};
ghost use Rattle.testing.specs.Named.{ray_named, list_or_tree};

use geom::Point;
use plans::Plan;
use prepared::locate::{Tables, locate_along};
use query::locate;
use rules::{Kind, Ray, Refusal, Spot, State, reply_number};
use states::StateNumbers;

// 0 right, 1 left, 2 up, any other number down. A function, since both types are other crates' and so no `From` may stand here.
fn ray_of(number: usize) -> Ray
    ensures { result ≡ ray_named number }
{
    match number {
        0 => Ray::Right,
        1 => Ray::Left,
        2 => Ray::Up,
        _ => Ray::Down,
    }
}

/// A list or a tree. `Kind::try_from` refuses other numbers, which are trees here.
pub(crate) fn kind_of(list: bool) -> Kind
    ensures { result ≡ list_or_tree list }
{
    if list { Kind::Polygons } else { Kind::Tree }
}

// Where a spot lies, along a ray, as a number: minus 15 where the numbers name no state.
fn look_up_along(ray: usize, numbers: StateNumbers, tables: &Tables<'_>, spot: Spot) -> i64
    ensures { Replied (state_named numbers) (λ s reply. SpotLooked s tables.now spot reply) result }
{
    match State::try_from(numbers) {
        Ok(state) => reply_number(locate_along(ray_of(ray), state, tables, spot)),
        Err(_) => reply_number(Err(Refusal::Unsound)),
    }
}

// Where a spot lies in a plan as it is handed in, as a number.
fn look_up_in_plan(
    kind: usize,
    coordinates: &[i64],
    lengths: &[usize],
    counts: &[usize],
    spot: Spot,
) -> i64
    ensures { result ≡ reply_number (answer (plan_verdict (record { kind = list_or_tree (eqb kind 0); coordinates = coordinates.now; lengths = lengths.now; counts = counts.now })) (spot_reply (record { kind = list_or_tree (eqb kind 0); coordinates = coordinates.now; lengths = lengths.now; counts = counts.now }) spot)) }
{
    let plan = Plan {
        kind: kind_of(kind == 0),
        coordinates,
        lengths,
        counts,
    };
    reply_number(locate(&plan, spot))
}

/// `prepared::locate::locate_along` in numbers: 0 outside, 1 inside, 2 on the boundary, or minus the refusal number; -15 too where the numbers
/// name no state.
#[unsafe(no_mangle)]
pub extern "C" fn testing_locate_along(
    ray: usize,
    state: StateNumbers,
    corners: &[i64],
    rings: &[usize],
    polygons: &[usize],
    boxes: &[[i64; 4]],
    parts: &[[usize; 3]],
    edges: &[usize],
    x: i64,
    y: i64,
) -> i64
    ensures { Replied (state_named state) (λ s reply. Looked s corners.now rings.now polygons.now boxes.now parts.now edges.now (in_range (record { x = x; y = y })) (plan_reply (plan_of s corners.now rings.now polygons.now) (record { x = x; y = y })) reply) result }
{
    let tables = Tables {
        corners,
        rings,
        polygons,
        boxes,
        parts,
        edges,
    };
    look_up_along(ray, state, &tables, Spot::OnGrid(Point { x, y }))
}

/// `prepared::locate::locate_along` on the half-grid, in the same numbers.
#[unsafe(no_mangle)]
pub extern "C" fn testing_locate_doubled_along(
    ray: usize,
    state: StateNumbers,
    corners: &[i64],
    rings: &[usize],
    polygons: &[usize],
    boxes: &[[i64; 4]],
    parts: &[[usize; 3]],
    edges: &[usize],
    x: i64,
    y: i64,
) -> i64
    ensures { Replied (state_named state) (λ s reply. Looked s corners.now rings.now polygons.now boxes.now parts.now edges.now (in_doubled_range (record { x = x; y = y })) (plan_half_reply (plan_of s corners.now rings.now polygons.now) (record { x = x; y = y })) reply) result }
{
    let tables = Tables {
        corners,
        rings,
        polygons,
        boxes,
        parts,
        edges,
    };
    look_up_along(ray, state, &tables, Spot::Doubled(Point { x, y }))
}

/// `query::locate`, which reads a plan as it is handed in, in the same numbers: -4 or -3 where the plan is refused. Kind 0 is a list, any other
/// a tree.
#[unsafe(no_mangle)]
pub extern "C" fn testing_locate_in_plan(
    kind: usize,
    coordinates: &[i64],
    lengths: &[usize],
    counts: &[usize],
    x: i64,
    y: i64,
) -> i64
    ensures { result ≡ reply_number (answer (plan_verdict (record { kind = list_or_tree (eqb kind 0); coordinates = coordinates.now; lengths = lengths.now; counts = counts.now })) (plan_reply (record { kind = list_or_tree (eqb kind 0); coordinates = coordinates.now; lengths = lengths.now; counts = counts.now }) (record { x = x; y = y }))) }
{
    let spot = Spot::OnGrid(Point { x, y });
    look_up_in_plan(kind, coordinates, lengths, counts, spot)
}

/// `query::locate` on the half-grid, likewise.
#[unsafe(no_mangle)]
pub extern "C" fn testing_locate_doubled_in_plan(
    kind: usize,
    coordinates: &[i64],
    lengths: &[usize],
    counts: &[usize],
    x: i64,
    y: i64,
) -> i64
    ensures { result ≡ reply_number (answer (plan_verdict (record { kind = list_or_tree (eqb kind 0); coordinates = coordinates.now; lengths = lengths.now; counts = counts.now })) (plan_half_reply (record { kind = list_or_tree (eqb kind 0); coordinates = coordinates.now; lengths = lengths.now; counts = counts.now }) (record { x = x; y = y }))) }
{
    let spot = Spot::Doubled(Point { x, y });
    look_up_in_plan(kind, coordinates, lengths, counts, spot)
}
