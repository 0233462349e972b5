// Quick steps in a row.
#![tactic(auto)]

pub mod kinds;
pub mod turns;
