// What preparing answers: refusals 4 and 3 of the plan, then 11 of the lent tables, then the state. Nothing is written.
ghost use Rattle.std.specs.Prelude.{◌≡◌};
ghost use Rattle.prepare.specs.Answers.{state_of, with_nodes, with_room, preparing};

use crate::{Ready, Room};
use index::count::node_count;
use plans::{Plan, PlanRoom, all_in_range};
use rules::{Refusal, State, Table, polygons_in};

// The state of a plan just prepared.
#[tactic(auto, unfolding(rules::specs::Plans::plan_in_range))]
fn state_of(plan: &Plan<'_>) -> State
    ensures { result ≡ state_of plan.now }
{
    State {
        kind: plan.kind,
        out_of_range: !all_in_range(plan.coordinates),
        corners: plan.coordinates.len() / 2,
        rings: plan.lengths.len(),
        polygons: polygons_in(plan.kind, plan.counts.len()),
        undo_depth: 0,
    }
}

// Refusal 11 of the index's tables, or ready.
#[tactic(auto, unfolding(crate::specs::Answers::with_nodes))]
fn with_nodes(state: State, room: Room) -> Result<Ready, Refusal>
    ensures { result ≡ with_nodes state room }
{
    let nodes = node_count(state.corners);
    if room.boxes < nodes || room.parts < nodes {
        return Err(Refusal::TableTooShort(Table::Nodes));
    }
    if room.edges < state.corners {
        return Err(Refusal::TableTooShort(Table::Edges));
    }
    Ok(Ready {
        state,
        nodes: Some(nodes),
    })
}

// Refusal 11 with the first table that is too short, or ready.
#[tactic(auto, unfolding(crate::specs::Answers::with_room))]
fn with_room(state: State, room: Room) -> Result<Ready, Refusal>
    ensures { result ≡ with_room state room }
{
    let tables = PlanRoom {
        corners: room.corners,
        rings: room.rings,
        polygons: room.polygons,
    };
    tables.holds(state.corners, state.rings, state.polygons)?;
    if state.out_of_range {
        return Ok(Ready { state, nodes: None });
    }
    with_nodes(state, room)
}

/// What preparing a plan into tables with this room answers.
#[tactic(auto, unfolding(crate::specs::Answers::preparing))]
pub(crate) fn answer(plan: &Plan<'_>, room: Room) -> Result<Ready, Refusal>
    ensures { result ≡ preparing plan.now room }
{
    plan.judge()?;
    with_room(state_of(plan), room)
}
