// Kept places of the memory unit: 48 page bases that translation is known to give, so that an access is a lookup and an addition.
#![tactic(auto)]

pub mod access;
pub mod table;
