// What the edges met so far say of each ring: its winding, or that the point is on it. One number a ring, its slot, so that the slots of
// 65,536 rings take half a mebibyte of the caller's own memory.
ghost use Rattle.std.specs.Prelude.{◌≡◌, ◌-◌, ◌<◌, ◌≤◌, ◌^◌, pos, length, get_or, set};
ghost use Rattle.geom.specs.Range.{within};
ghost use Rattle.walk.specs.Steps.{Whether};
ghost use Rattle.gather.specs.declared.tally.Layout.TheVariants.{Listed};
ghost use Rattle.gather.specs.Slots.{counted_of, place_of};
ghost use Rattle.gather.specs.Tallies.{Reaching, Inserted, Room, AddSays};

use boxes::ring_of;
use rings::crossings::{Crossing, wound};
use rules::Location;

// How many rings a list of rings has room for.
pub(crate) const LISTED: usize = 128;

// The most windings either way that a slot counts: no plan has so many edges.
const MOST: i64 = 2305843009213693952;

// The slot of a ring that the point is on. An `Option<i64>` for a slot takes twice the memory: a mebibyte of stack for 65,536 rings.
const BOUNDARY: i64 = 4611686018427387904;

// Which slot belongs to which ring. A list that kept its own length would make count and fold generic over two kinds of slots, to save one
// branch at an edge.
#[derive(Clone, Copy)]
pub(crate) enum Layout {
    // Slot k belongs to the ring at place k of a list of rings by rising number, which holds so many.
    Listed(usize),
    // Slot r belongs to ring r.
    EachRing,
}

// Whether a slot holds a winding.
fn is_winding(slot: i64) -> bool
    ensures { result ≡ within (2 ^ 61) slot }
{
    (0 - MOST <= slot) & (slot <= MOST)
}

// A slot with one edge more.
fn counted(slot: i64, crossing: Crossing) -> i64
    ensures { result ≡ counted_of slot crossing }
{
    if is_winding(slot) {
        if crossing == Crossing::On {
            return BOUNDARY;
        }
        return wound(slot, crossing);
    }
    BOUNDARY
}

// Where the point lies in a ring, by its slot.
pub(crate) fn place_of(slot: i64) -> Location
    ensures { result ≡ place_of slot }
{
    if is_winding(slot) {
        if slot != 0 {
            return Location::Inside;
        }
        return Location::Outside;
    }
    Location::OnBoundary
}

// Counts one edge more in slot k.
fn count_in(slots: &mut [i64], k: usize, crossing: Crossing)
    requires { k < length slots.old }
    ensures { slots.new ≡ set slots.old k (counted_of (get_or slots.old k (pos 0)) crossing) }
{
    slots[k] = counted(slots[k], crossing);
}

// How many of the rings listed are not higher than this one.
fn reaching(listed: &[usize], used: usize, ring: usize) -> usize
    requires { used ≤ length listed.now }
    ensures { Reaching listed.now used ring result }
{
    if used == 0 {
        return 0;
    }
    if listed[used - 1] <= ring {
        return used;
    }
    ring_of(listed, used, ring)
}

// Whether the last of the first k rings listed is this one.
fn ends_with(listed: &[usize], k: usize, ring: usize) -> bool
    requires { k ≤ length listed.now }
    ensures { Whether ((0 < k) × (get_or listed.now (k - 1) 0 ≡ ring)) result }
{
    0 < k && listed[k - 1] == ring
}

// Puts a ring and its slot at place k, in front of those that stand from there to `used`.
fn insert(listed: &mut [usize], slots: &mut [i64], used: usize, k: usize, ring: usize, slot: i64)
    requires { (k ≤ used) × (used < length listed.old) × (used < length slots.old) }
    ensures listed_inserted { Inserted 0 listed.old used k ring listed.new }
    ensures slots_inserted { Inserted (pos 0) slots.old used k slot slots.new }
{
    // one pass over both lists: two calls of `copy_within` take longer where many rings are listed
    for j in (k..used).rev() {
        listed[j + 1] = listed[j];
        slots[j + 1] = slots[j];
    }
    listed[k] = ring;
    slots[k] = slot;
}

// Counts one edge more of a ring that is listed, or that the list has a place for: `None` where it has none.
fn add_listed(
    listed: &mut [usize],
    slots: &mut [i64],
    used: usize,
    ring: usize,
    crossing: Crossing,
) -> Option<Layout>
    requires { Room (Listed used) (length listed.old) (length slots.old) }
    ensures { AddSays (Listed used) listed.old slots.old ring crossing listed.new slots.new result }
{
    let k = reaching(listed, used, ring);
    if ends_with(listed, k, ring) {
        count_in(slots, k - 1, crossing);
        return Some(Layout::Listed(used));
    }
    if LISTED <= used {
        return None;
    }
    insert(listed, slots, used, k, ring, counted(0, crossing));
    Some(Layout::Listed(used + 1))
}

// Counts one edge more, of the given ring: which slot belongs to which ring then, or `None` where it is of yet another ring and the list
// has no place for it. An edge that says nothing of the point asks for no place.
pub(crate) fn add(
    layout: Layout,
    listed: &mut [usize],
    slots: &mut [i64],
    ring: usize,
    crossing: Crossing,
) -> Option<Layout>
    requires room { Room layout (length listed.old) (length slots.old) }
    requires ring_bound { ring < 65536 }
    ensures { AddSays layout listed.old slots.old ring crossing listed.new slots.new result }
{
    if matches!(crossing, Crossing::Nothing) {
        return Some(layout);
    }
    match layout {
        Layout::Listed(used) => add_listed(listed, slots, used, ring, crossing),
        Layout::EachRing => {
            count_in(slots, ring, crossing);
            Some(Layout::EachRing)
        }
    }
}
