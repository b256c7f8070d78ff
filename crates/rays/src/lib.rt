// The four rays: which one a look-up takes, the rectangle that it crosses, and how an edge counts along it (document 01, items 6 and 7;
// src/prepared.rs).
#![tactic(auto)]

pub mod along;
pub mod choice;
pub mod doubles;
pub mod reach;
