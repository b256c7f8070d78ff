// Look-ups in prepared plans through the hierarchy of boxes (document 01, items 6 to 8; src/prepared.rs and `first_not_outside` of
// src/query.rs).
#![tactic(auto)]

pub mod first;
pub mod locate;
