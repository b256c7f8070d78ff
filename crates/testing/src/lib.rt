// What the tests in tests/ ask of the engine beside its exports: look-ups along each ray, plans handed in, a list of calls as a whole,
// walks step by step, builds and selections with their counts, and the leaves. Each function hands its arguments on and gives the answer in
// numbers, with what that call promises; what is done with them is the tests' part. No server links it.
#![tactic(auto)]

pub mod builds;
pub mod leaves;
pub mod lists;
pub mod look_ups;
pub mod walks;
