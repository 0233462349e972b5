// Quick steps on words, block moves, and program control.
#![tactic(auto, unfolding(execute::specs::Execute::execute_of, execute::specs::Execute::execute_by))]

mod entry;
mod on_arith16;
mod on_block;
mod on_jump;
pub mod on_load16;
