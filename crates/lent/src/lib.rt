// The calls over a stored form and lent memory that run no instruction, and what every such call refuses its buffers by. A refused call
// changes no byte.
#![tactic(auto)]

ghost use Rattle.std.specs.Prelude.{◌≡◌, IfOk};
ghost use Rattle.bus.specs.Leave.{event_of};
ghost use Rattle.legal.specs.Refusal.{refused_by};
ghost use Rattle.form.specs.Form.{reading, read_form};
ghost use Rattle.lent.specs.Lent.{formed, reset_form, lent_refusal, completed_by, moved, deliver_form, make_form};

use bus::kinds::Event;
use events::Numbered;
use form::{LENGTH, Restored, read_form, write_form};
use legal::refusal::Refusal;

// The reset record into the form, with so many frames of memory. Refusals 3, 1.
#[tactic(auto, using(crate::proofs::Laws::other_length))]
pub fn reset(form: &mut [u8], frames: u8) -> Result<(), Refusal>
    ensures { formed (refused_by result) form.new ≡ reset_form form.old frames }
{
    let fits = form.len() == LENGTH;
    if !fits {
        return Err(Refusal::BufferLength);
    }
    write_form(legal::reset(), frames as u16, form)
}

// What a form reads as, lent with a memory and an answer or event of these lengths. Refusals 3, 4, 10, 2, 5 of the form; 1; 3.
#[tactic(auto, using(crate::proofs::Laws::form_refused), unfolding(crate::specs::Lent::lent_refusal))]
pub fn read_lent(form: &[u8], memory: usize, bytes: usize) -> Result<Restored, Refusal>
    ensures refusal { refused_by result ≡ lent_refusal (read_form form.now) memory bytes }
    ensures read { IfOk result (λ a. reading (Ok a) ≡ read_form form.now) }
{
    let a = read_form(form)?;
    if memory != a.frames as usize * 4096 {
        return Err(Refusal::MemoryLength);
    }
    if bytes != events::BYTES {
        return Err(Refusal::BufferLength);
    }
    Ok(a)
}

// The steps that one step completes, by its event.
#[tactic(auto, unfolding(crate::specs::Lent::completed_by))]
pub fn completed_by(e: Event) -> u16
    ensures { result ≡ completed_by (event_of e) }
{
    u16::from(Numbered::from(e).number == 0)
}

// Delivers the trap of an event. Refusals 3, 4, 10, 2, 5 of the form; 1; 3 of the event; 8, 9.
#[tactic(auto, using(crate::proofs::Laws::twelve, crate::proofs::Laws::deliver_refused))]
pub fn deliver(form: &mut [u8], memory: &mut [u8], event: &[u8]) -> Result<(), Refusal>
    ensures { moved (refused_by result) form.new memory.new ≡ deliver_form form.old memory.old event.now }
{
    let a = read_lent(form, memory.len(), event.len())?;
    let e = handed::event_in(event);
    let next = deliver::deliver(a.machine, memory, e)?;
    // Never refused: `works_for_c`, crates/theorems.
    let _ = write_form(next, a.frames, form);
    Ok(())
}

// Sets the valid bit of a descriptor. Refusals 3, 4, 10, 2, 5 of the form; 6, 7.
#[tactic(auto, using(crate::proofs::Laws::make_refused, crate::proofs::Laws::unmade))]
pub fn make_valid(form: &mut [u8], descriptor: u8) -> Result<(), Refusal>
    ensures { formed (refused_by result) form.new ≡ make_form form.old descriptor }
{
    let a = read_form(form)?;
    let next = valid::make_valid(a.machine, descriptor)?;
    // Never refused: `works_for_c`, crates/theorems.
    let _ = write_form(next, a.frames, form);
    Ok(())
}
