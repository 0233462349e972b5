// What the fetch of an opening sequence comes to, and what a step begins with.
ghost use Rattle.std.specs.Prelude.{◌≡◌};
ghost use Rattle.regs.specs.Select.{user_of};

use mmu::Mode;
use regs::{Control, Regs};

// The opening, the operation code, the displacement that stands before it after DD CB and FD CB, and the address behind it.
#[derive(Clone, Copy)]
pub struct Lead {
    pub opening: u8,
    pub code: u8,
    pub displacement: u8,
    pub at: u16,
}

// Registers and control registers before a step, and the mode that they put it in.
#[derive(Clone, Copy)]
pub struct Begun {
    pub regs: Regs,
    pub ctl: Control,
    pub mode: Mode,
    pub ghost in_mode: { mode.user ≡ user_of ctl },
}
