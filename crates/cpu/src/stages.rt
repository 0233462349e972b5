// What stands between the accesses of a step: the instruction that was fetched, what ends it early, new control registers.
ghost use Rattle.std.specs.Prelude.{◌≡◌, List, ℕ};
ghost use Rattle.board.specs.Program.{exec};
ghost use Rattle.bus.specs.Leave.{state_of, whole};
ghost use Rattle.cpu.specs.Program.{ruled, missing, ins_of, arg_of, early};

use bus::kinds::{Event, Turn};
use decode::op;
use plan::kinds::{Early, Governed, Ins, Stop};
use regs::{Control, Regs};

// New control registers: privileged.
#[tactic(auto, unfolding(crate::specs::Program::ruled, board::specs::Program::exec, board::specs::Program::halted, board::specs::Program::finish, bus::specs::Leave::event_of))]
pub fn rule(r: Regs, c: Control, control: u16, g: Governed) -> Turn
    ensures { (ds w : List ℕ) → whole result ds w ≡ exec (ruled g) (state_of r c control ds w) }
{
    let user = c.user();
    if user {
        return Turn {
            regs: r,
            ctl: c,
            mmu: control,
            event: Event::Stopped(Stop::Privileged(r.pc)),
        };
    }
    let q = g.regs;
    let k = g.ctl;
    Turn {
        regs: q,
        ctl: k,
        mmu: control,
        event: Event::Completed,
    }
}

#[tactic(auto, unfolding(crate::specs::Program::early))]
pub fn early_end(r: Regs, c: Control, i: Ins) -> Option<Early>
    ensures { result ≡ early r c i }
{
    let may = i.op < op::EX_A_R;
    if may {
        plan::early::early_of(r, c, i)
    } else {
        None
    }
}

#[tactic(auto, unfolding(crate::specs::Program::missing))]
pub fn missing_of(r: Regs, c: Control, e: u16) -> Stop
    ensures { result ≡ missing r c e }
{
    let traps = (decode::op_of(e) == op::EXTENDED) & (c.tcr / 2 % 2 == 0);
    if traps {
        return Stop::Extended(r.pc);
    }
    Stop::Nothing(r.pc)
}

#[tactic(auto, unfolding(crate::specs::Program::arg_of))]
#[inline(always)]
fn arg_of(bytes: u8, d: u8, n: u64) -> u32
    ensures { result ≡ arg_of bytes d n }
{
    let none = bytes == 0;
    if none {
        return u32::from(d);
    }
    (n % 4294967296) as u32
}

#[tactic(auto, unfolding(crate::specs::Program::ins_of))]
#[inline(always)]
pub fn ins_of(r: Regs, o: u8, b: u8, d: u8, e: u16, at: u16, n: u64) -> Ins
    ensures { result ≡ ins_of r o b d e at n }
{
    let bytes = decode::bytes_of(e);
    let arg = arg_of(bytes, d, n);
    let op = decode::op_of(e);
    let mode = decode::mode_of(e);
    let reads = decode::reads_of(e);
    let next = plan::kinds::plus16(at, bytes as u16);
    Ins {
        opening: o,
        code: b,
        op,
        mode,
        reads,
        arg,
        start: r.pc,
        next,
    }
}
