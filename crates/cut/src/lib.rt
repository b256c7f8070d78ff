// The cut of a node's part of the edge list (document 01, item 5): along which axis, by which key, and the selection that does it.
#![tactic(auto)]
/// The cutting key of an edge, and the cut of a part by it.
pub mod keys;
/// The selection of the lesser numbers of a part.
pub mod selection;
