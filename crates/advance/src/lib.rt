// Advance, in order: what an advance is about to store, as a value.
#![tactic(auto)]

mod rules;
mod steps;

pub use steps::plan_advance;
