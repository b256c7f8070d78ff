// The hierarchy of boxes over the edges of a plan (document 01, items 5 and 9; `Index::of_boxes` of src/prepared.rs).
#![tactic(auto)]
/// The tables of the hierarchy, built.
pub mod build;
/// The number of nodes, N(n).
pub mod count;
/// One node of the table of parts.
pub mod parts;
