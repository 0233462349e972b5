// The end of a step: a fault, or writes that are all checked, low byte first, before any byte changes.
ghost use Rattle.std.specs.Prelude.{◌≡◌, ◌<◌, ℕ, List, IfOk};
ghost use Rattle.bus.specs.Access.{room_for};
ghost use Rattle.bus.specs.Leave.{state_of, whole, denial, one_write, two_writes, listed};
ghost use Rattle.bus.specs.Write.{Wrote};

use crate::kinds::{Event, Turn};
use crate::read::next_of;
use board::Fault;
use mmu::Mode;
use plan::kinds::Write;
use regs::{Control, Regs};

// A faulting access ends the step.
#[tactic(auto, unfolding(crate::specs::Leave::denial, crate::specs::Leave::event_of, board::specs::Program::after, board::specs::Program::faulted))]
pub fn denied(r: Regs, c: Control, control: u16, e: Fault) -> Turn
    ensures { (ds w : List ℕ) → whole result ds w ≡ denial (state_of r c control ds w) e }
{
    match e {
        Fault::Denied(i) => Turn {
            regs: r,
            ctl: c,
            mmu: mmu::latch(control, i),
            event: Event::Violation(i, r.pc),
        },
        Fault::Lacks(p) => Turn {
            regs: r,
            ctl: c,
            mmu: control,
            event: Event::Absent(p),
        },
    }
}

// The physical address that a write goes to.
#[tactic(auto, unfolding(crate::specs::Access::room_for, board::specs::Program::through, board::specs::Program::if_room))]
#[inline(always)]
pub fn room_for(
    mode: Mode,
    ds: &[u16; 32],
    size: usize,
    program: bool,
    a: u16,
) -> Result<u64, Fault>
    ensures value { result ≡ room_for mode.user mode.control ds.now size program a }
    ensures inside { IfOk result (λ p. p < size) }
{
    let p = mode.translate(ds, program, true, a)?;
    let inside = (p as usize) < size;
    if inside { Ok(p) } else { Err(Fault::Lacks(p)) }
}

// One byte and two stay two functions: a loop over bytes would need a buffer for the places found before the first is stored.
#[tactic(auto, unfolding(crate::specs::Write::kept, crate::specs::Leave::denial, crate::specs::Access::room_for, board::specs::Program::after, board::specs::Program::writes, board::specs::Program::write_to, board::specs::Program::touch))]
fn put_one(
    mode: Mode,
    ds: &mut [u16; 32],
    w: &mut [u8],
    k: bool,
    a: u16,
    b: u8,
) -> Result<(), Fault>
    ensures { Wrote mode.user mode.control (one_write k a b) result ds.old w.old ds.new w.new }
{
    let p = room_for(mode, ds, w.len(), k, a)?;
    w[p as usize] = b;
    mode.mark(ds, k, a);
    Ok(())
}

#[tactic(auto, unfolding(crate::specs::Write::kept, crate::specs::Leave::denial, crate::specs::Access::room_for, board::specs::Program::after, board::specs::Program::writes, board::specs::Program::write_to, board::specs::Program::touch))]
fn put_two(
    mode: Mode,
    ds: &mut [u16; 32],
    w: &mut [u8],
    k: bool,
    a: u16,
    v: u16,
) -> Result<(), Fault>
    ensures { Wrote mode.user mode.control (two_writes k a v) result ds.old w.old ds.new w.new }
{
    let p = room_for(mode, ds, w.len(), k, a)?;
    let z = next_of(a);
    let q = room_for(mode, ds, w.len(), k, z)?;
    // The two halves by the definition's words (`two_writes`).
    w[p as usize] = (v % 256) as u8;
    w[q as usize] = (v / 256) as u8;
    mode.mark(ds, k, a);
    mode.mark(ds, k, z);
    Ok(())
}

// All writes of an instruction, or the first fault: then no byte and no descriptor has changed.
#[tactic(auto, unfolding(crate::specs::Leave::listed, crate::specs::Write::kept, board::specs::Program::writes))]
pub fn write_out(mode: Mode, ds: &mut [u16; 32], w: &mut [u8], x: Write) -> Result<(), Fault>
    ensures { Wrote mode.user mode.control (listed x) result ds.old w.old ds.new w.new }
{
    match x {
        Write::Nothing => Ok(()),
        Write::One(k, a, b) => put_one(mode, ds, w, k, a, b),
        Write::Two(k, a, v) => put_two(mode, ds, w, k, a, v),
    }
}
