// Where a spot lies in a prepared plan, through the boxes, on either grid (document 01, items 6 and 7; `locate`, `locate_raw` and
// `locate_doubled` of src/prepared.rs).
ghost use Rattle.std.specs.Prelude.{◌≡◌};
ghost use Rattle.boxes.specs.Boxes.{rect_at};
ghost use Rattle.prepared.specs.Calls.{SpotLooked, Chosen, spot_ray};

use boxes::rect_at;
use gather::half::half_along;
use gather::region::region_along;
pub use gather::tables::Tables;
use rays::choice::ray_of;
use rays::doubles::doubled_rect;
use rules::{Location, Ray, Reply, Spot, State};

/// Where a spot lies in the plan that prepared tables hold, through the boxes and with the given ray: the reply is the same for each of the
/// four.
///
/// Outside, with no table read, where the spot or the plan is out of range. On sound tables the plan's reply. On other tables some place, or
/// 15 (`Unsound`) where a table is shorter than the state says or a number leads outside its table.
pub fn locate_along(ray: Ray, state: State, tables: &Tables<'_>, spot: Spot) -> Reply
    ensures { SpotLooked state tables.now spot result }
{
    if state.out_of_range || !spot.in_range() {
        return Ok(Location::Outside);
    }
    match spot {
        Spot::OnGrid(p) => region_along(ray, state, tables, p),
        Spot::Doubled(p) => half_along(ray, state, tables, p),
    }
}

// The ray by item 6 over the root box, on the half-grid over the doubled root box; any where there is no root.
fn root_ray(n: usize, boxes: &[[i64; 4]], spot: Spot) -> Ray
    ensures { Chosen boxes.now (spot_ray n (rect_at boxes.now 0) spot) result }
{
    if boxes.len() == 0 {
        return Ray::Right;
    }
    let root = rect_at(boxes, 0);
    match spot {
        Spot::OnGrid(p) => ray_of(n, root, p),
        Spot::Doubled(p) => ray_of(n, doubled_rect(root), p),
    }
}

/// Where a spot lies in the plan that prepared tables hold, through the boxes, with the ray that reaches the root box's side soonest.
/// Refused and replied to as `locate_along` is.
pub fn locate(state: State, tables: &Tables<'_>, spot: Spot) -> Reply
    ensures { SpotLooked state tables.now spot result }
{
    if state.out_of_range || !spot.in_range() {
        return Ok(Location::Outside);
    }
    let ray = root_ray(state.corners, tables.boxes, spot);
    locate_along(ray, state, tables, spot)
}
