// One ring: how each edge counts for a point, once round the ring on either grid, and places weighed against each other (document 01,
// items 3, 4 and 7; src/query.rs).
#![tactic(auto)]

pub mod crossings;
pub mod half;
pub mod places;
pub mod ring;
