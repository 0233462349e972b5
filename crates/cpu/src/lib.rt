// The processor: a step and its stages.
#![tactic(auto)]

pub mod fetch;
pub mod kinds;
pub mod stages;
pub mod step;
mod turns;
