// The public step and run: refusals 1 and 2 in this order, then the defined steps.
#![tactic(auto)]

ghost use Rattle.std.specs.Prelude.{◌≡◌, length};
ghost use Rattle.legal.specs.Refusal.{refused_by};
ghost use Rattle.host.specs.Host.{refusal_of, stepped, step_of, ran, run_of};

use bus::kinds::Event;
use legal::refusal::{Refusal, Refused};
use regs::Machine;
use steps::{Ran, run_steps};

// A step's answer: the machine, the event.
#[derive(Clone, Copy)]
pub struct Stepped {
    pub machine: Machine,
    pub event: Event,
}

#[tactic(auto, unfolding(crate::specs::Host::refusal_of))]
fn admit(m: Machine, n: usize) -> Result<(), Refusal>
    ensures { refused_by result ≡ refusal_of m n }
{
    if !legal::whole_frames(n) {
        return Err(Refusal::MemoryLength);
    }
    if !legal::allowed(m) {
        return Err(Refusal::ReservedBit);
    }
    Ok(())
}

// Works one step. Refused, it changes no byte and hands the record back.
#[tactic(auto, using(crate::proofs::Laws::refused_step))]
pub fn step(m: Machine, w: &mut [u8]) -> Result<Stepped, Refused>
    ensures { stepped result w.new ≡ step_of m w.old }
{
    match admit(m, w.len()) {
        Err(k) => Err(k.beside(m)),
        Ok(()) => {
            let a = run_steps(m, w, 1);
            Ok(Stepped {
                machine: a.machine,
                event: a.event,
            })
        }
    }
}

// Works up to `budget` steps, and stops at the first event other than 0. Refused, it changes no byte and hands the record back.
#[tactic(auto, using(crate::proofs::Laws::refused_run))]
pub fn run(m: Machine, w: &mut [u8], budget: u16) -> Result<Ran, Refused>
    ensures { ran result w.new ≡ run_of m w.old budget }
{
    match admit(m, w.len()) {
        Err(k) => Err(k.beside(m)),
        Ok(()) => Ok(run_steps(m, w, budget)),
    }
}
