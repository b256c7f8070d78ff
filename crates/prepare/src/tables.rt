// The lent tables filled, once it is known that the plan is accepted and that there is room.
ghost use Rattle.std.specs.Prelude.{◌≡◌, ◌≤◌, length, drop, ◌++◌};
ghost use Rattle.prepare.specs.Tables.{ends_in, polygons_end, Fits, PolygonsFit, PlanFits, PlanPut, Buildable, Indexed};

use index::build::build;
use plans::Plan;
use rules::{Kind, State};

// Puts the coordinates at the start of the corner table.
fn put_corners(coordinates: &[i64], corners: &mut [i64])
    requires { length coordinates.now ≤ length corners.old }
    ensures { corners.new ≡ coordinates.now ++ drop (length coordinates.now) corners.old }
{
    // `copy_from_slice` would have a server link C's `memmove`.
    for (i, &coordinate) in coordinates.iter().enumerate() {
        corners[i] = coordinate;
    }
}

// Puts the sums so far of a list of lengths at the start of a table.
fn put_ends(lengths: &[usize], table: &mut [usize])
    requires { Fits lengths.now table.old }
    ensures { table.new ≡ ends_in lengths.now table.old }
{
    let mut end = 0;
    for (i, &length) in lengths.iter().enumerate() {
        end += length;
        table[i] = end;
    }
}

// Puts the end of each polygon's rings. A tree's polygon table stays as it was.
fn put_polygons(kind: Kind, counts: &[usize], polygons: &mut [usize])
    requires { PolygonsFit kind counts.now polygons.old }
    ensures { polygons.new ≡ polygons_end kind counts.now polygons.old }
{
    if kind == Kind::Polygons {
        put_ends(counts, polygons);
    }
}

/// Puts an accepted plan into its tables.
pub(crate) fn put_plan(
    plan: &Plan<'_>,
    corners: &mut [i64],
    rings: &mut [usize],
    polygons: &mut [usize],
)
    requires { PlanFits plan.now corners.old rings.old polygons.old }
    ensures { PlanPut plan.now corners.old rings.old polygons.old corners.new rings.new polygons.new }
{
    put_corners(plan.coordinates, corners);
    put_ends(plan.lengths, rings);
    put_polygons(plan.kind, plan.counts, polygons);
}

/// Builds the index of the plan in the tables. A plan that is out of range has none, and nothing is written.
pub(crate) fn put_index(
    state: State,
    corners: &[i64],
    rings: &[usize],
    boxes: &mut [[i64; 4]],
    parts: &mut [[usize; 3]],
    edges: &mut [usize],
)
    requires { Buildable state corners.now rings.now boxes.old parts.old edges.old }
    ensures { Indexed state corners.now rings.now boxes.old parts.old edges.old boxes.new parts.new edges.new }
{
    if state.out_of_range {
        return;
    }
    build(
        corners,
        rings,
        boxes,
        parts,
        edges,
        state.corners,
        state.rings,
    );
}
