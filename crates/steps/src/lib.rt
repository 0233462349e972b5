// A run with a budget: a step by its stages, the quick steps that follow it, and again. Descriptors and tables are copied once.
#![tactic(auto)]

ghost use Rattle.std.specs.Prelude.{◌≡◌};
ghost use Rattle.board.specs.Run.{run};
ghost use Rattle.cpu.specs.Program.{program};
ghost use Rattle.cpu.specs.Machine.{machine_state};
ghost use Rattle.steps.specs.Ran.{ran_of, stops_at};

mod table;

use crate::table::Held;
use bus::kinds::Event;
use cpu::step::step;
use decode::Entries;
use mmu::Mode;
use quick::turns::quick;
use regs::{Control, Machine, Regs};

// The machine after the completed steps, and the event that ended the run.
#[derive(Clone, Copy)]
pub struct Ran {
    pub machine: Machine,
    pub event: Event,
    pub steps: u16,
}

fn ended(regs: Regs, ctl: Control, mmu: u16, ds: [u16; 32], event: Event, steps: u16) -> Ran
    ensures { result ≡ record { machine = record { regs = regs; ctl = ctl; mmu = mmu; ds = ds }; event = event; steps = steps } }
{
    let machine = Machine { regs, ctl, mmu, ds };
    Ran {
        machine,
        event,
        steps,
    }
}

#[tactic(auto, unfolding(crate::specs::Ran::stops_at))]
fn stops(e: Event) -> bool
    ensures { result ≡ stops_at e }
{
    !matches!(e, Event::Completed)
}

// No `for`: a turn is a step and as many quick steps as follow it.
pub fn run_steps(m: Machine, w: &mut [u8], budget: u16) -> Ran
    ensures { ran_of result w.new ≡ run program budget (machine_state m w.old) }
{
    let mut r = m.regs;
    let mut c = m.ctl;
    let mut control = m.mmu;
    let mut ds = m.ds;
    let tables = Entries::new();
    let mut held = Held::new(w.len());
    let mut n: u16 = 0;
    while n < budget {
        let t = step(r, c, control, &mut ds, w, &tables);
        let over = stops(t.event);
        if over {
            return ended(t.regs, t.ctl, t.mmu, ds, t.event, n);
        }
        r = t.regs;
        c = t.ctl;
        control = t.mmu;
        n = n + 1;
        if n < budget {
            let mode = Mode::of(control, c.user());
            held.refresh(mode, &ds);
            let y = quick(r, mode.user, &held.places, w, &tables, budget - n);
            r = y.regs;
            n = n + y.steps;
        }
    }
    ended(r, c, control, ds, Event::Completed, n)
}
