// The face towards C: one thin function for each declaration of include/akfelzun.h. Each answers 0 where the work was
// done, a refusal's number, 100 for a reading that is far, 101 for what is absent. A number handed back is 0 unless the answer is 0.
#![tactic(auto)]

pub mod files;
pub mod keys;
pub mod march;
pub mod meshing;
pub mod questions;
pub mod readings;
