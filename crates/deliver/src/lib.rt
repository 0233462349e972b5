// Delivering a trap: a host call.
#![tactic(auto)]

mod traps;

ghost use Rattle.std.specs.Prelude.{◌≡◌};
ghost use Rattle.saves.specs.Saves.{outcome};
ghost use Rattle.deliver.specs.Deliver.{taken, deliver_of};

use crate::traps::{Trap, trap_of};
use bus::kinds::Event;
use legal::refusal::{Refusal, Refused};
use regs::Machine;
use saves::save;

#[tactic(auto, unfolding(crate::specs::Deliver::taken))]
fn take(m: Machine, w: &mut [u8], t: Option<Trap>) -> Result<Machine, Refused>
    ensures { outcome result w.new ≡ taken m w.old t }
{
    match t {
        Some(Trap::Two(offset, address)) => save(m, w, offset, [address, m.ctl.msr]),
        Some(Trap::Three(offset, address, operand)) => {
            save(m, w, offset, [address, m.ctl.msr, operand])
        }
        None => Err(Refusal::Undeliverable.beside(m)),
    }
}

// Delivers a trap. Refused, it changes no byte and hands the record back.
#[tactic(auto, unfolding(crate::specs::Deliver::deliver_of))]
pub fn deliver(m: Machine, w: &mut [u8], e: Event) -> Result<Machine, Refused>
    ensures { outcome result w.new ≡ deliver_of m w.old e }
{
    if !legal::whole_frames(w.len()) {
        return Err(Refusal::MemoryLength.beside(m));
    }
    if !legal::allowed(m) {
        return Err(Refusal::ReservedBit.beside(m));
    }
    take(m, w, trap_of(e))
}
