// A plan as it is handed in: its corners, whether they are in range, refusals 4 and 3 (document 01, items 1 and 6, "From the input"), and 11 where
// the tables for it are too short.
#![tactic(auto)]

ghost use Rattle.std.specs.Prelude.{◌≡◌, not, ◌&&◌, ◌||◌, ◌+◌, ◌*◌, ◌<◌, cond, eqb, ltb, length, set, Ok, Err};
ghost use Rattle.rules.specs.declared.Refusal.TheVariants.{TableTooShort};
ghost use Rattle.rules.specs.declared.Table.TheVariants.{Corners, Rings, Polygons};
ghost use Rattle.rules.specs.Lists.{any_of, total};
ghost use Rattle.rules.specs.Plans.{corners_of, corner_at, is_list, too_many, uneven, Judged, all_in_range};

use geom::Point;
use rules::{Kind, Refusal, Table};
use std::marker::Model;

/// The most corners that a plan may have.
pub const MAX_CORNERS: usize = 1048576;

/// The most rings that a plan may have.
pub const MAX_RINGS: usize = 65536;

/// The most polygons that a list may have.
pub const MAX_POLYGONS: usize = 65536;

/// Corner i of a coordinate list.
pub fn corner_at(coordinates: &[i64], i: usize) -> Point
    requires { 2 * i + 1 < length coordinates.now }
    ensures { result ≡ corner_at coordinates.now i }
{
    Point {
        x: coordinates[2 * i],
        y: coordinates[2 * i + 1],
    }
}

/// Puts corner i of a coordinate list at a place.
pub fn put_corner(coordinates: &mut [i64], i: usize, place: Point)
    requires { 2 * i + 1 < length coordinates.old }
    ensures { coordinates.new ≡ set (set coordinates.old (2 * i) place.x) (2 * i + 1) place.y }
{
    coordinates[2 * i] = place.x;
    coordinates[2 * i + 1] = place.y;
}

/// Whether every corner of a coordinate list is in range. An odd number at the end is no corner. Nothing is refused.
pub fn all_in_range(coordinates: &[i64]) -> bool
    ensures { result ≡ all_in_range (corners_of coordinates.now) }
{
    (0..coordinates.len() / 2).all(|i| corner_at(coordinates, i).in_range())
}

// Whether the entries of a table sum to n. What is left of n is kept, so that nothing wraps whatever the entries are.
fn sums_to(table: &[usize], n: usize) -> bool
    ensures { result ≡ eqb (total table.now) n }
{
    let mut left = n;
    for &entry in table {
        if entry > left {
            return false;
        }
        left -= entry;
    }
    left == 0
}

/// Whether some entry of a table is 0: among ring counts a polygon of no rings, among ring lengths an empty ring.
pub fn has_zero(counts: &[usize]) -> bool
    ensures { result ≡ any_of (λ n. eqb n 0) counts.now }
{
    counts.contains(&0)
}

/// A plan as it is handed in: coordinates x, y, x, y, .., the length of each ring and, for a list, how many rings each polygon has.
#[derive(Drop)]
pub struct Plan<'a> {
    pub kind: Kind,
    pub coordinates: &'a [i64],
    pub lengths: &'a [usize],
    pub counts: &'a [usize],
}

// A clause sees the plan of `rules`, whose lists these tables hold.
impl<'a> Model for Plan<'a> {
    ghost use Rattle.rules.specs.Plans.{Plan as Listed};

    ghost Value = { Listed };

    ghost view = { λ plan. record { kind = plan.kind; coordinates = plan.coordinates.now; lengths = plan.lengths.now; counts = plan.counts.now } };
}

impl<'a> Plan<'a> {
    // Whether a list's ring counts do not sum to its rings, or a polygon has no rings. A tree's are not looked at.
    fn counts_uneven(&self) -> bool
        ensures { result ≡ is_list self.now.kind && (not (eqb (total self.now.counts) (length self.now.lengths)) || any_of (λ n. eqb n 0) self.now.counts) }
    {
        self.kind == Kind::Polygons
            && (!sums_to(self.counts, self.lengths.len()) || has_zero(self.counts))
    }

    // Refusal 4: a count above its ceiling. A tree's polygons are not looked at.
    #[tactic(auto, unfolding(rules::specs::Plans::too_many))]
    fn too_many(&self) -> bool
        ensures { result ≡ too_many self.now }
    {
        self.coordinates.len() / 2 > MAX_CORNERS
            || self.lengths.len() > MAX_RINGS
            || (self.kind == Kind::Polygons && self.counts.len() > MAX_POLYGONS)
    }

    // Refusal 3: an odd coordinate list, ring lengths not summing to the corners, or uneven ring counts of a list.
    #[tactic(auto, unfolding(rules::specs::Plans::uneven))]
    fn uneven(&self) -> bool
        ensures { result ≡ uneven self.now }
    {
        self.coordinates.len() % 2 == 1
            || !sums_to(self.lengths, self.coordinates.len() / 2)
            || self.counts_uneven()
    }

    /// Refusals 4 and 3 of the plan, or that it is accepted.
    ///
    /// Refused with 4 (`TooMany`) where it has more corners, rings or, as a list, polygons than their ceilings; an odd coordinate list
    /// counts as half its length, rounded down. Otherwise refused with 3 (`Uneven`) where the coordinate list is odd, where the lengths do
    /// not sum to the corners or, for a list, where the counts do not sum to the rings or a polygon has no rings. A tree's counts are not
    /// looked at.
    pub fn judge(&self) -> Result<(), Refusal>
        ensures { Judged self.now result }
    {
        if self.too_many() {
            return Err(Refusal::TooMany);
        }
        if self.uneven() {
            return Err(Refusal::Uneven);
        }
        Ok(())
    }
}

/// How many numbers lent tables hold: of corners, two numbers a corner, of rings and of polygons.
#[derive(Clone, Copy)]
pub struct PlanRoom {
    pub corners: usize,
    pub rings: usize,
    pub polygons: usize,
}

impl PlanRoom {
    /// Whether the tables hold so many corners, rings and polygons. Refused with 11 (`TableTooShort`) and the first table, in that
    /// order, that is too short.
    pub fn holds(self, corners: usize, rings: usize, polygons: usize) -> Result<(), Refusal>
        ensures { result ≡ cond (ltb self.corners (2 * corners)) (Err (TableTooShort Corners)) (cond (ltb self.rings rings) (Err (TableTooShort Rings)) (cond (ltb self.polygons polygons) (Err (TableTooShort Polygons)) (Ok tt))) }
    {
        if self.corners / 2 < corners {
            return Err(Refusal::TableTooShort(Table::Corners));
        }
        if self.rings < rings {
            return Err(Refusal::TableTooShort(Table::Rings));
        }
        if self.polygons < polygons {
            return Err(Refusal::TableTooShort(Table::Polygons));
        }
        Ok(())
    }
}
