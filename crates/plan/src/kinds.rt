// What passes between the stages of a step.
ghost use Rattle.std.specs.Prelude.{◌≡◌};
ghost use Rattle.plan.specs.Kinds.{quiet, stores, stores_word, plus, byte, word, immediate_of};

use decode::mode;
use regs::{Control, Regs};

// Events 3 to 9 of document 01, with what each carries.
#[derive(Clone, Copy)]
pub enum Stop {
    Privileged(u16),
    // The operand, the next address.
    Call(u16, u16),
    Extended(u16),
    Halted,
    Break(u16),
    // The 24 bit port; true is output.
    Port(u32, bool),
    Nothing(u16),
}

// An instruction that was fetched whole: what its table says (operation, mode, bytes read at the operand's place), and in `arg` the
// bytes beside the operation code, low byte first.
#[derive(Clone, Copy)]
pub struct Ins {
    pub opening: u8,
    pub code: u8,
    pub op: u8,
    pub mode: u8,
    pub reads: u8,
    pub arg: u32,
    // Its address, and the next instruction's.
    pub start: u16,
    pub next: u16,
}

// Where an operand lies: by program or by data, at a logical address, and how many bytes of it are read.
#[derive(Clone, Copy)]
pub struct Spot {
    pub program: bool,
    pub a: u16,
    pub n: u8,
}

// How a step ends in its stages 2 and 3: the event, and the PC that it leaves.
#[derive(Clone, Copy)]
pub struct Early {
    pub pc: u16,
    pub stop: Stop,
}

// What is written at the end: by program or by data, at a logical address; a word low byte first.
#[derive(Clone, Copy)]
pub enum Write {
    Nothing,
    One(bool, u16, u8),
    Two(bool, u16, u16),
}

// What an instruction ends with.
#[derive(Clone, Copy)]
pub struct Done {
    pub regs: Regs,
    pub write: Write,
}

// What one that changes control registers ends with.
#[derive(Clone, Copy)]
pub struct Governed {
    pub regs: Regs,
    pub ctl: Control,
}

// Registers alone.
pub fn still(r: Regs) -> Done
    ensures { result ≡ quiet r }
{
    Done {
        regs: r,
        write: Write::Nothing,
    }
}

// Registers and a byte.
pub fn storing(r: Regs, s: Spot, b: u8) -> Done
    ensures { result ≡ stores r s b }
{
    Done {
        regs: r,
        write: Write::One(s.program, s.a, b),
    }
}

// Registers and a word.
pub fn storing_word(r: Regs, s: Spot, v: u16) -> Done
    ensures { result ≡ stores_word r s v }
{
    Done {
        regs: r,
        write: Write::Two(s.program, s.a, v),
    }
}

// Addresses and 16 bit index sums wrap: the library's, under the definition's name that a law cites.
pub fn plus16(a: u16, b: u16) -> u16
    ensures { result ≡ plus a b }
{
    a.wrapping_add(b)
}

// The low bits of a number: the library truncates no number by a method, and `as` asks that it fits.
pub fn low8(v: u32) -> u8
    ensures { result ≡ byte v }
{
    (v % 256) as u8
}

pub fn low16(v: u32) -> u16
    ensures { result ≡ word v }
{
    (v % 65536) as u16
}

// The immediate after the address.
pub fn immediate(i: Ins) -> u32
    ensures { result ≡ immediate_of i }
{
    match i.mode {
        mode::NO => i.arg,
        mode::IR => i.arg,
        mode::DA => i.arg / 65536,
        mode::SX => i.arg / 256,
        mode::X_IX => i.arg / 65536,
        mode::X_IY => i.arg / 65536,
        mode::X_HL => i.arg / 65536,
        mode::RA => i.arg / 65536,
        mode::SR => i.arg / 65536,
        _ => i.arg,
    }
}
