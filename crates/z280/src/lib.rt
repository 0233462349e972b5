// The machine for C. A machine is its stored form in the host's own buffer, memory is lent. C has no `Result`: each call answers the number
// of its refusal, 0 for none; a refused call changes no byte. An answer, and an event that is delivered, has the 12 bytes of crate `events`.
#![tactic(auto)]

ghost use Rattle.std.specs.Prelude.{◌≡◌};
ghost use Rattle.legal.specs.Refusal.{refused_by};
ghost use Rattle.lent.specs.Lent.{formed, reset_form, moved, deliver_form, make_form};
ghost use Rattle.z280.specs.Calls.{answered, step_form, run_form};

use form::write_form;
use legal::refusal::{Refusal, refused_by};
use lent::{completed_by, read_lent};

#[tactic(auto, using(crate::proofs::Laws::step_refused))]
fn step(form: &mut [u8], memory: &mut [u8], answer: &mut [u8]) -> Result<(), Refusal>
    ensures { answered (refused_by result) form.new memory.new answer.new ≡ step_form form.old memory.old answer.old }
{
    let a = read_lent(form, memory.len(), answer.len())?;
    let r = host::step(a.machine, memory)?;
    events::put_answer(answer, r.event, completed_by(r.event));
    // Never refused: `works_for_c`, crates/theorems.
    let _ = write_form(r.machine, a.frames, form);
    Ok(())
}

#[tactic(auto, using(crate::proofs::Laws::run_refused))]
fn run(form: &mut [u8], memory: &mut [u8], budget: u16, answer: &mut [u8]) -> Result<(), Refusal>
    ensures { answered (refused_by result) form.new memory.new answer.new ≡ run_form form.old memory.old budget answer.old }
{
    let a = read_lent(form, memory.len(), answer.len())?;
    let r = host::run(a.machine, memory, budget)?;
    events::put_answer(answer, r.event, r.steps);
    // Never refused: `works_for_c`, crates/theorems.
    let _ = write_form(r.machine, a.frames, form);
    Ok(())
}

// The reset record into the form, with so many frames of memory. Refusals 3, 1.
pub fn z280_reset(form: &mut [u8], frames: u8) -> u8
    ensures { formed result form.new ≡ reset_form form.old frames }
{
    refused_by(lent::reset(form, frames))
}

// One step. Refusals 3, 4, 10, 2, 5 of the form; 1; 3 of the answer.
pub fn z280_step(form: &mut [u8], memory: &mut [u8], answer: &mut [u8]) -> u8
    ensures { answered result form.new memory.new answer.new ≡ step_form form.old memory.old answer.old }
{
    refused_by(step(form, memory, answer))
}

// Up to `budget` steps, to the first event other than 0. Refusals as of a step.
pub fn z280_run(form: &mut [u8], memory: &mut [u8], budget: u16, answer: &mut [u8]) -> u8
    ensures { answered result form.new memory.new answer.new ≡ run_form form.old memory.old budget answer.old }
{
    refused_by(run(form, memory, budget, answer))
}

// Delivers the trap of an event. Refusals 3, 4, 10, 2, 5 of the form; 1; 3 of the event; 8, 9.
pub fn z280_deliver(form: &mut [u8], memory: &mut [u8], event: &[u8]) -> u8
    ensures { moved result form.new memory.new ≡ deliver_form form.old memory.old event.now }
{
    refused_by(lent::deliver(form, memory, event))
}

// Sets the valid bit of a descriptor. Refusals 3, 4, 10, 2, 5 of the form; 6, 7.
pub fn z280_make_valid(form: &mut [u8], descriptor: u8) -> u8
    ensures { formed result form.new ≡ make_form form.old descriptor }
{
    refused_by(lent::make_valid(form, descriptor))
}
