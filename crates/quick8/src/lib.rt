// Quick steps on bytes: loads, arithmetic and logic.
#![tactic(auto, unfolding(execute::specs::Execute::execute_of, execute::specs::Execute::execute_by))]

mod entry;
mod on_arith8;
pub mod on_load8;
