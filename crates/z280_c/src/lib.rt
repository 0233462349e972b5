// The calls of crate `z280` as a static library for C (include/z280.h): each export calls the function of its name, and promises the same.
#![tactic(auto)]

ghost use Rattle.std.specs.Prelude.{◌≡◌};
ghost use Rattle.lent.specs.Lent.{formed, reset_form, moved, deliver_form, make_form};
ghost use Rattle.z280.specs.Calls.{answered, step_form, run_form};

// The reset record into the form, with so many frames of memory. Refusals 3, 1.
#[unsafe(no_mangle)]
pub extern "C" fn z280_reset(form: &mut [u8], frames: u8) -> u8
    ensures { formed result form.new ≡ reset_form form.old frames }
{
    z280::z280_reset(form, frames)
}

// One step. Refusals 3, 4, 10, 2, 5 of the form; 1; 3 of the answer.
#[unsafe(no_mangle)]
pub extern "C" fn z280_step(form: &mut [u8], memory: &mut [u8], answer: &mut [u8]) -> u8
    ensures { answered result form.new memory.new answer.new ≡ step_form form.old memory.old answer.old }
{
    z280::z280_step(form, memory, answer)
}

// Up to `budget` steps, to the first event other than 0. Refusals as of a step.
#[unsafe(no_mangle)]
pub extern "C" fn z280_run(form: &mut [u8], memory: &mut [u8], budget: u16, answer: &mut [u8]) -> u8
    ensures { answered result form.new memory.new answer.new ≡ run_form form.old memory.old budget answer.old }
{
    z280::z280_run(form, memory, budget, answer)
}

// Delivers the trap of an event. Refusals 3, 4, 10, 2, 5 of the form; 1; 3 of the event; 8, 9.
#[unsafe(no_mangle)]
pub extern "C" fn z280_deliver(form: &mut [u8], memory: &mut [u8], event: &[u8]) -> u8
    ensures { moved result form.new memory.new ≡ deliver_form form.old memory.old event.now }
{
    z280::z280_deliver(form, memory, event)
}

// Sets the valid bit of a descriptor. Refusals 3, 4, 10, 2, 5 of the form; 6, 7.
#[unsafe(no_mangle)]
pub extern "C" fn z280_make_valid(form: &mut [u8], descriptor: u8) -> u8
    ensures { formed result form.new ≡ make_form form.old descriptor }
{
    z280::z280_make_valid(form, descriptor)
}
