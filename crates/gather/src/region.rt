// Where a point lies in the region of a prepared plan, by the windings of its rings along a ray (document 01, items 3, 4 and 6;
// `locate_raw` of src/prepared.rs). At most two walks: the first lists up to 128 rings, and only where it meets more of them does a second
// one give each ring a slot. So the work goes by the edges met, however the rings are nested, and no lent table is written.
ghost use Rattle.std.specs.Prelude.{◌≡◌, true, false, [], ◌≤◌, ◌<◌, length};
ghost use Rattle.gather.specs.Tallies.{ring_at, size_of, is_listed, Room, Tallied};
ghost use Rattle.gather.specs.Regions.{Listable, FoldSays, RegionSays, region_reply};
ghost use Rattle.gather.specs.Lent.{plan_in, SoundIn, LookedIn};

use crate::collect::{Stopped, collect};
use crate::tables::Tables;
use crate::tally::{LISTED, Layout, place_of};
use boxes::rect_at;
use fold::{begin, finish, fold_ring};
use geom::Point;
use plans::MAX_RINGS;
use rays::reach::ray_rect;
use rules::{Kind, Location, Ray, Refusal, Reply, State, polygons_in};
use walk::Query;

// How many slots count, of so many rings.
fn size_of(layout: Layout, count: usize) -> usize
    ensures { result ≡ size_of count layout }
{
    match layout {
        Layout::Listed(used) => used,
        Layout::EachRing => count,
    }
}

// The ring of slot k.
fn ring_at(layout: Layout, listed: &[usize], k: usize) -> usize
    requires { Listable layout k (length listed.now) }
    ensures { result ≡ ring_at layout listed.now k }
{
    match layout {
        Layout::Listed(_) => listed[k],
        Layout::EachRing => k,
    }
}

// The polygon, list or tree rule over the slots, by rising ring number.
fn fold_slots(
    kind: Kind,
    polygons: &[usize],
    polygon_count: usize,
    count: usize,
    layout: Layout,
    listed: &[usize],
    slots: &[i64],
) -> Location
    requires room { Room layout (length listed.now) (length slots.now) }
    requires count_bound { count ≤ 65536 }
    ensures { FoldSays kind polygons.now polygon_count count layout listed.now slots.now result }
{
    let mut fold = begin(kind);
    for k in 0..size_of(layout, count) {
        let ring = ring_at(layout, listed, k);
        let place = place_of(slots[k]);
        fold = fold_ring(polygons, polygon_count, fold, ring, place);
    }
    finish(fold)
}

// What one walk along the ray says of the region, with no edge counted before it.
fn region_by(
    layout: Layout,
    ray: Ray,
    state: State,
    tables: &Tables<'_>,
    p: Point,
    listed: &mut [usize],
    slots: &mut [i64],
) -> Result<Location, Stopped>
    requires room { Room layout (length listed.old) (length slots.old) }
    requires as_stated { (state.rings ≤ 65536) × (0 < length tables.now.boxes.now) }
    ensures { RegionSays (is_listed layout) (SoundIn state tables.now × Tallied state.rings [] layout listed.old slots.old) (region_reply (plan_in state tables.now) p) result }
{
    let query = Query::Meeting(ray_rect(ray, rect_at(tables.boxes, 0), p));
    let plan = tables.lent(state);
    let whole = collect(layout, ray, query, &plan, p, listed, slots)?;
    let polygon_count = polygons_in(state.kind, state.polygons);
    Ok(fold_slots(
        state.kind,
        tables.polygons,
        polygon_count,
        state.rings,
        whole,
        listed,
        slots,
    ))
}

// By a list of rings.
fn few_rings(ray: Ray, state: State, tables: &Tables<'_>, p: Point) -> Result<Location, Stopped>
    requires { (state.rings ≤ 65536) × (0 < length tables.now.boxes.now) }
    ensures { RegionSays true (SoundIn state tables.now) (region_reply (plan_in state tables.now) p) result }
{
    let mut listed = [0; LISTED];
    let mut slots = [0; LISTED];
    region_by(
        Layout::Listed(0),
        ray,
        state,
        tables,
        p,
        &mut listed,
        &mut slots,
    )
}

// By a slot for each ring, where a list has not been enough. A function of its own in the machine's code too: as a part of `region_along`
// it would have each look-up touch all pages of half a mebibyte before its first step.
#[inline(never)]
fn many_rings(ray: Ray, state: State, tables: &Tables<'_>, p: Point) -> Result<Location, Stopped>
    requires { (state.rings ≤ 65536) × (0 < length tables.now.boxes.now) }
    ensures { RegionSays false (SoundIn state tables.now) (region_reply (plan_in state tables.now) p) result }
{
    let mut listed = [0; 1];
    let mut slots = [0; MAX_RINGS];
    region_by(
        Layout::EachRing,
        ray,
        state,
        tables,
        p,
        &mut listed,
        &mut slots,
    )
}

// By a list of rings, or by a slot for each ring where the list has not been enough.
fn region(ray: Ray, state: State, tables: &Tables<'_>, p: Point) -> Result<Location, Stopped>
    requires { (state.rings ≤ 65536) × (0 < length tables.now.boxes.now) }
    ensures { RegionSays false (SoundIn state tables.now) (region_reply (plan_in state tables.now) p) result }
{
    match few_rings(ray, state, tables, p) {
        Err(Stopped::TooMany) => many_rings(ray, state, tables, p),
        few => few,
    }
}

/// Where p lies in the region of a prepared plan, along any of the four rays: on sound tables the reply by the polygon, list or tree
/// rule, the same for each ray. The range of p is not looked at.
///
/// On other tables some place, or 15 (`Unsound`): where a table is shorter than the state says, where there are more than 65,536 rings,
/// or where a walk leads outside a table.
pub fn region_along(ray: Ray, state: State, tables: &Tables<'_>, p: Point) -> Reply
    ensures { LookedIn state tables.now (region_reply (plan_in state tables.now) p) result }
{
    if !tables.are_enough(state) {
        return Err(Refusal::Unsound);
    }
    if MAX_RINGS < state.rings {
        return Err(Refusal::Unsound);
    }
    Ok(region(ray, state, tables, p)?)
}
