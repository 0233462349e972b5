// The machine record (document 01): registers, control registers, the memory unit's control word and descriptors. AF to HL always
// mean the bank in use; the alternates end in 2.
#![tactic(auto, unfolding(crate::specs::Select::index_of, crate::specs::Select::put_index, crate::specs::Select::byte_of, crate::specs::Select::put_byte, crate::specs::Select::sp_of, crate::specs::Select::put_sp, crate::specs::Select::pair_of, crate::specs::Select::put_pair, crate::specs::Select::stacked_of, crate::specs::Select::put_stacked, crate::specs::Select::condition_of))]

pub mod change;
pub mod govern;
pub mod select;

#[derive(Clone, Copy)]
pub struct Regs {
    pub af: u16,
    pub bc: u16,
    pub de: u16,
    pub hl: u16,
    pub af2: u16,
    pub bc2: u16,
    pub de2: u16,
    pub hl2: u16,
    pub ix: u16,
    pub iy: u16,
    pub pc: u16,
    // System stack pointer, user stack pointer.
    pub ssp: u16,
    pub usp: u16,
    // The bank bits of AF and of the others: true is the alternate.
    pub bankaf: bool,
    pub bankx: bool,
}

#[derive(Clone, Copy)]
pub struct Control {
    // Master status, trap control, I/O page, system stack limit, vector table pointer.
    pub msr: u16,
    pub tcr: u8,
    pub iopage: u8,
    pub limit: u16,
    pub vector: u16,
}

#[derive(Clone, Copy)]
pub struct Machine {
    pub regs: Regs,
    pub ctl: Control,
    // The memory unit's control word and page descriptors: 0 to 15 user, 16 to 31 system.
    pub mmu: u16,
    pub ds: [u16; 32],
}
