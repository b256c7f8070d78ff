// The six tables of a prepared plan, as a look-up is lent them (document 01, items 5 and 9). They are only read.
ghost use Rattle.std.specs.Prelude.{◌≡◌};
ghost use Rattle.walk.specs.Steps.{Whether};
ghost use Rattle.gather.specs.Lent.{EnoughIn, lent_by};

use index::count::node_count;
use rules::{State, polygons_in};
use walk::LentPlan;

/// The tables of a prepared plan. Each may be longer than the plan: the state says how far it reaches.
#[derive(Clone, Copy)]
pub struct Tables<'a> {
    /// The corners' coordinates: x, y, x, y, ..
    pub corners: &'a [i64],
    /// Where each ring ends.
    pub rings: &'a [usize],
    /// Where the rings of each polygon of a list end.
    pub polygons: &'a [usize],
    /// The box of each node.
    pub boxes: &'a [[i64; 4]],
    /// Where the part of each node starts in the edge list, how long it is, and where the left child stands.
    pub parts: &'a [[usize; 3]],
    /// The edge list.
    pub edges: &'a [usize],
}

impl<'a> Tables<'a> {
    // Whether each table is as long as the state says.
    pub(crate) fn are_enough(&self, state: State) -> bool
        ensures { Whether (EnoughIn state self.now) result }
    {
        let nodes = node_count(state.corners);
        state.corners <= self.corners.len() / 2
            && state.rings <= self.rings.len()
            && polygons_in(state.kind, state.polygons) <= self.polygons.len()
            && nodes <= self.boxes.len()
            && nodes <= self.parts.len()
            && state.corners <= self.edges.len()
    }

    // The tables as a walk is lent them.
    pub(crate) fn lent(&self, state: State) -> LentPlan<'a>
        ensures { result ≡ lent_by state self.now }
    {
        LentPlan {
            corners: self.corners,
            rings: self.rings,
            boxes: self.boxes,
            parts: self.parts,
            edges: self.edges,
            n: state.corners,
            count: state.rings,
        }
    }
}
