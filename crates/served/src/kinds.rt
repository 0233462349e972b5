// What a quick step goes by.
use plan::kinds::{Ins, Spot};

// A code that was fetched: its table's entry e, the opening o, the operation code b; the logical address behind it, and the physical one.
#[derive(Clone, Copy)]
pub struct Code {
    pub e: u16,
    pub o: u8,
    pub b: u8,
    pub at: u16,
    pub p: usize,
}

// What a step is given and doesn't change: the code that was fetched, whether in user mode, the kept places. The memory is lent beside it:
// a step changes it, and that the code was fetched from it (`Fetched`) is a fact about both.
#[derive(Clone, Copy)]
pub struct Given<'a> {
    pub c: Code,
    pub u: bool,
    pub kept: &'a [u32; 48],
}

// An instruction, its operand's place, and what was read there.
#[derive(Clone, Copy)]
pub struct Begun {
    pub i: Ins,
    pub s: Spot,
    pub v: u32,
}
