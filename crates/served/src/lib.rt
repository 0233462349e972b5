// What a quick step promises, and the one step that all quick steps are instances of.
#![tactic(auto)]

pub mod kinds;
mod parts;
pub mod step;
