// Events and what a step leaves beside descriptors and memory.
use plan::kinds::Stop;
use regs::{Control, Regs};

// Events 0 to 9 of document 01: completed; access violation with descriptor number and address; no memory at a physical address;
// and 3 to 9.
#[derive(Clone, Copy)]
pub enum Event {
    Completed,
    Violation(u8, u16),
    Absent(u64),
    Stopped(Stop),
}

#[derive(Clone, Copy)]
pub struct Turn {
    pub regs: Regs,
    pub ctl: Control,
    pub mmu: u16,
    pub event: Event,
}
