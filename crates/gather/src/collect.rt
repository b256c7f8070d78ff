// One walk along a ray that counts every edge it meets in the slot of the edge's ring (document 01, items 3 and 6; `ray_segments` of
// src/prepared.rs). The slots are the caller's own: no table of the plan is written.
ghost use Rattle.std.specs.Prelude.{◌≡◌, ◌≤◌, length};
ghost use Rattle.gather.specs.Tallies.{Room};
ghost use Rattle.gather.specs.Collections.{NoteIn, LeafIn, CollectIn};

use crate::tally::{Layout, add};
use geom::Point;
use index::build::STACK;
use rays::along::crossing_along;
use rules::{Ray, Refusal, Unsound};
use walk::edges::edge_at;
use walk::{LentPlan, Query, next_leaf, past_leaf, start};

// Why a walk stops before its end.
#[derive(Clone, Copy)]
pub(crate) enum Stopped {
    // There are more rings among the edges met than a list holds.
    TooMany,
    // 15: the walk or one of its edges led outside a table.
    Unsound,
}

impl From<Unsound> for Stopped {
    ghost use Rattle.gather.specs.declared.collect.Stopped.TheVariants.{Unsound as stopped_as_unsound};

    ghost from_gives = { λ _ stopped. stopped ≡ stopped_as_unsound };

    fn from(_unsound: Unsound) -> Self {
        Self::Unsound
    }
}

// Whatever stopped a walk for good, its tables are not sound.
impl From<Stopped> for Refusal {
    ghost use Rattle.rules.specs.declared.Refusal.TheVariants.{Unsound as refused_as_unsound};

    ghost from_gives = { λ _ refusal. refusal ≡ refused_as_unsound };

    fn from(_stopped: Stopped) -> Self {
        Self::Unsound
    }
}

// What stands once an edge is counted, or the edges of a leaf: which slot belongs to which ring, and the last edge's ring.
#[derive(Clone, Copy)]
pub(crate) struct Noted {
    pub layout: Layout,
    pub ring: usize,
}

// Counts edge e in the slot of its ring.
fn note(
    layout: Layout,
    ray: Ray,
    plan: &LentPlan<'_>,
    e: usize,
    near: usize,
    p: Point,
    listed: &mut [usize],
    slots: &mut [i64],
) -> Result<Noted, Stopped>
    requires room { Room layout (length listed.old) (length slots.old) }
    requires count_bound { plan.now.count ≤ 65536 }
    ensures { NoteIn plan.now ray p e layout listed.old slots.old listed.new slots.new result }
{
    let edge = edge_at(plan, e, near)?;
    let crossing = crossing_along(ray, edge.from, edge.to, p);
    let Some(layout) = add(layout, listed, slots, edge.ring, crossing) else {
        return Err(Stopped::TooMany);
    };
    Ok(Noted {
        layout,
        ring: edge.ring,
    })
}

// Counts the edges at the places from `at` up to `to` of the edge list, a leaf's. One walk over a trait for this count and for that of
// `half` was proved, and look-ups took 3 to 10 hundredths more.
fn note_leaf(
    layout: Layout,
    ray: Ray,
    plan: &LentPlan<'_>,
    at: usize,
    to: usize,
    near: usize,
    p: Point,
    listed: &mut [usize],
    slots: &mut [i64],
) -> Result<Noted, Stopped>
    requires room { Room layout (length listed.old) (length slots.old) }
    requires leaf_bounds { (plan.now.count ≤ 65536) × (at ≤ to) × (to ≤ length plan.now.edges.now) }
    ensures { LeafIn plan.now ray p at to layout listed.old slots.old listed.new slots.new result }
{
    // A copy of its own stays in the machine's registers: what is behind a reference would be read again after each slot that is written.
    let plan = *plan;
    let mut here = Noted { layout, ring: near };
    for k in at..to {
        here = note(
            here.layout,
            ray,
            &plan,
            plan.edges[k],
            here.ring,
            p,
            listed,
            slots,
        )?;
    }
    Ok(here)
}

// Walks from leaf to leaf and counts the edges of each along the ray: which slot belongs to which ring in the end.
//
// On sound tables the slots then hold, ring by ring, what the edges yielded give: every edge whose box is one to enter, and none twice.
// `TooMany` comes of a list alone. `Unsound` (15) never comes of sound tables.
pub(crate) fn collect(
    layout: Layout,
    ray: Ray,
    query: Query,
    plan: &LentPlan<'_>,
    p: Point,
    listed: &mut [usize],
    slots: &mut [i64],
) -> Result<Layout, Stopped>
    requires room { Room layout (length listed.old) (length slots.old) }
    requires count_bound { plan.now.count ≤ 65536 }
    ensures { CollectIn plan.now ray query p layout listed.old slots.old listed.new slots.new result }
{
    let mut stack = [0usize; STACK];
    let mut cursor = start(plan.n);
    let mut here = Noted { layout, ring: 0 };
    while let Some(leaf) = next_leaf(&mut stack, plan, query, cursor)? {
        here = note_leaf(
            here.layout,
            ray,
            plan,
            leaf.at,
            leaf.to,
            here.ring,
            p,
            listed,
            slots,
        )?;
        cursor = past_leaf(leaf);
    }
    Ok(here.layout)
}
