// Which machine records and memories are allowed, the record at reset, and the refusals of the public calls.
#![tactic(auto)]

pub mod refusal;

ghost use Rattle.std.specs.Prelude.{◌≡◌};
ghost use Rattle.legal.specs.Legal.{whole_frames, allowed_control, allowed_bits, reset_record};

use regs::{Control, Machine, Regs};

// Memory is 1 to 16 whole frames of 4,096 bytes: what refusal 1 asks.
pub fn whole_frames(n: usize) -> bool
    ensures { result ≡ whole_frames n }
{
    (n % 4096 == 0) & (1 <= n / 4096) & (n / 4096 <= 16)
}

fn allowed_control(c: Control) -> bool
    ensures { result ≡ allowed_control c }
{
    (c.msr & 0x537f == c.msr) & (c.tcr < 8) & (c.limit % 16 == 0) & (c.vector % 16 == 0)
}

// No bit is set that may not be: what refusal 2 asks.
pub fn allowed(m: Machine) -> bool
    ensures { result ≡ allowed_bits m }
{
    allowed_control(m.ctl) & (m.mmu & 0xcc1f == m.mmu)
}

// Written out: what a derived `default` promises, field by field and by index, did not close as this equation.
pub fn reset() -> Machine
    ensures { result ≡ reset_record }
{
    let regs = Regs {
        af: 0,
        bc: 0,
        de: 0,
        hl: 0,
        af2: 0,
        bc2: 0,
        de2: 0,
        hl2: 0,
        ix: 0,
        iy: 0,
        pc: 0,
        ssp: 0,
        usp: 0,
        bankaf: false,
        bankx: false,
    };
    let ctl = Control {
        msr: 0,
        tcr: 0,
        iopage: 0,
        limit: 0,
        vector: 0,
    };
    Machine {
        regs: regs,
        ctl: ctl,
        mmu: 0,
        ds: [0; 32],
    }
}
