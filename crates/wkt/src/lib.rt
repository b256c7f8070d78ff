// Well-Known Text read into a plan's tables, and a plan written as Well-Known Text (document 02, R-1).
#![tactic(auto)]

pub mod numbers;
pub mod read;
pub mod write;
