// Windings ring by ring, gathered by walks through the hierarchy of boxes that write no lent table (document 01, items 4, 6 and 7).
#![tactic(auto)]

mod collect;
pub mod half;
pub mod region;
pub mod tables;
mod tally;
