// Ring by ring: where a point lies in a ring, a polygon, a list and a tree, and on the half-grid (src/query.rs; document 01, items 3,
// 4, 6 and 7).
#![tactic(auto)]

mod plan;

pub use plan::{locate, locate_by_rings};
