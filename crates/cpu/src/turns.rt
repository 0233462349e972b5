// What a step leaves, by how it ends.
ghost use Rattle.std.specs.Prelude.{◌≡◌};
ghost use Rattle.cpu.specs.Turns.{completed_turn, stopped_turn};

use bus::kinds::{Event, Turn};
use plan::kinds::Stop;
use regs::{Control, Regs};

pub fn completed(r: Regs, c: Control, control: u16) -> Turn
    ensures { result ≡ completed_turn r c control }
{
    Turn {
        regs: r,
        ctl: c,
        mmu: control,
        event: Event::Completed,
    }
}

pub fn stopped(r: Regs, c: Control, control: u16, e: Stop) -> Turn
    ensures { result ≡ stopped_turn r c control e }
{
    Turn {
        regs: r,
        ctl: c,
        mmu: control,
        event: Event::Stopped(e),
    }
}
