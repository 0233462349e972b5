// A step: stage 1, then what judges the instruction and ends it early, then its work. Each way out is a return, which the compiler takes as
// unlikely, and what is called with the whole record has one caller, and goes into the run's loop.
ghost use Rattle.std.specs.Prelude.{◌≡◌};
ghost use Rattle.board.specs.Program.{exec};
ghost use Rattle.bus.specs.Leave.{state_of, whole};
ghost use Rattle.cpu.specs.Program.{worked, judged, program};
ghost use Rattle.cpu.specs.Turns.{came};

use crate::fetch::lead_of;
use crate::kinds::Begun;
use crate::stages::{early_end, ins_of, missing_of, rule};
use crate::turns::{completed, stopped};
use board::Fault;
use bus::kinds::Turn;
use bus::read::read_number;
use bus::store::{denied, write_out};
use decode::{Entries, op};
use mmu::Mode;
use plan::kinds::{Ins, Spot};
use regs::{Control, Regs};

// Stage 5 and completion; v is the operand.
#[inline(always)]
fn work(x: Begun, ds: &mut [u16; 32], w: &mut [u8], i: Ins, s: Spot, v: u32) -> Result<Turn, Fault>
    ensures { came x.regs x.ctl x.mode.control result ds.new w.new ≡ exec (worked x.regs x.ctl i s v) (state_of x.regs x.ctl x.mode.control ds.old w.old) }
{
    let past = x.regs.with_pc(i.next);
    let rules = i.op < op::EX_A_R;
    if rules {
        return Ok(rule(
            x.regs,
            x.ctl,
            x.mode.control,
            govern::govern(past, x.ctl, i, v),
        ));
    }
    let Some(d) = execute::execute(past, x.mode.user, i, s, v) else {
        return Ok(completed(execute::swap(past, i), x.ctl, x.mode.control));
    };
    write_out(x.mode, ds, w, d.write)?;
    Ok(completed(d.regs, x.ctl, x.mode.control))
}

// Stages 2 to 4, and the work.
#[inline(always)]
fn judge(x: Begun, ds: &mut [u16; 32], w: &mut [u8], i: Ins) -> Result<Turn, Fault>
    ensures { came x.regs x.ctl x.mode.control result ds.new w.new ≡ exec (judged x.regs x.ctl i) (state_of x.regs x.ctl x.mode.control ds.old w.old) }
{
    if let Some(y) = early_end(x.regs, x.ctl, i) {
        return Ok(stopped(x.regs.with_pc(y.pc), x.ctl, x.mode.control, y.stop));
    }
    let s = plan::places::spot_of(x.mode.user, x.regs, i);
    let v = read_number(x.mode, ds, w, s.program, s.a, s.n)?;
    work(x, ds, w, i, s, (v % 4294967296) as u32)
}

#[inline(always)]
fn attempt(x: Begun, ds: &mut [u16; 32], w: &mut [u8], t: &Entries) -> Result<Turn, Fault>
    ensures { came x.regs x.ctl x.mode.control result ds.new w.new ≡ exec (program x.regs x.ctl) (state_of x.regs x.ctl x.mode.control ds.old w.old) }
{
    let l = lead_of(x.mode, ds, w, t, x.regs.pc)?;
    let e = t.entry(l.opening, l.code);
    let missing = e < 2048;
    if missing {
        return Ok(stopped(x.regs, x.ctl, x.mode.control, missing_of(x.regs, x.ctl, e)));
    }
    let n = read_number(x.mode, ds, w, true, l.at, decode::bytes_of(e))?;
    let i = ins_of(x.regs, l.opening, l.code, l.displacement, e, l.at, n);
    judge(x, ds, w, i)
}

#[inline(always)]
pub fn step(
    r: Regs,
    c: Control,
    control: u16,
    ds: &mut [u16; 32],
    w: &mut [u8],
    t: &Entries,
) -> Turn
    ensures { whole result ds.new w.new ≡ exec (program r c) (state_of r c control ds.old w.old) }
{
    let mode = Mode::of(control, c.user());
    let x = Begun {
        regs: r,
        ctl: c,
        mode,
    };
    match attempt(x, ds, w, t) {
        Ok(turn) => turn,
        Err(e) => denied(r, c, control, e),
    }
}
