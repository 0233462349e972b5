// Bytes through the memory unit: reads, checked writes, and what a step leaves.
// Mode, descriptors and memory stay parameters: reads are lent the last two and writes change them, so one struct would be two, no plainer.
#![tactic(auto)]

pub mod kinds;
pub mod read;
pub mod store;
