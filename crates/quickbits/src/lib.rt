// Quick steps on single bits, rotates and shifts.
#![tactic(auto, unfolding(execute::specs::Execute::execute_of, execute::specs::Execute::execute_by))]

mod entry;
pub mod on_bits;
