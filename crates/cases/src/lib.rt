// What the programs of cases share. A case is a line of items NAME=VALUE, which set cells and bytes of memory, and of items that ask for
// them; cells stand for the machine, and for what a call is given and answers.
#![tactic(auto)]

pub mod calls;
pub mod cells;
pub mod item;
mod machines;
pub mod memory;
pub mod report;
pub mod script;
