// Ring by ring over tables: where a point lies in a polygon, a list and a tree, and on the half-grid (document 01, items 3, 4 and 7).
#![tactic(auto)]

pub mod parity;
pub mod rows;
pub mod shapes;
