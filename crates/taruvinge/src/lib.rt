// The machine's public face for Rattle (that for C is crate `z280`): every public call and type. A call refuses by a `Refusal`, in the
// order that is given here by the numbers of document 01; a refused call changes no lent byte and hands the record back as it was.
#![tactic(auto)]

// The machine record: registers, control registers, MMU control, 32 page descriptors.
pub use regs::Machine;
// AF to HL, their alternates, IX, IY, PC, both stack pointers, the bank bits.
pub use regs::Regs;
// MSR, TCR, I/O page, stack limit, vector pointer.
pub use regs::Control;

// What ended a step, with what it carries: event 0, 1 or 2, or one of 3 to 9 as a `Stop`.
pub use bus::kinds::Event;
// Events 3 to 9, with what each carries.
pub use plan::kinds::Stop;

// Why a call did nothing: document 01's refusals 1 to 10.
pub use legal::refusal::Refusal;
// What a call on a record answers that it refuses: the refusal, and the record as it was.
pub use legal::refusal::Refused;

// What a step answers: machine, event.
pub use host::Stepped;
// What a run answers: machine, event, steps completed.
pub use steps::Ran;
// What the reader answers: machine, frames of its memory.
pub use form::Restored;
// What it answers of a form that it refuses: refusal, and the reset record with one frame.
pub use form::Unread;

// The reset record: zero throughout. Refuses nothing.
pub use legal::reset;
// One step on the lent memory. Refusals 1, 2.
pub use host::step;
// Up to `budget` steps, to the first event other than 0. Refusals 1, 2.
pub use host::run;
// Delivers the trap of event 1, 3, 4 or 7. Refusals 1, 2, 8, 9.
pub use deliver::deliver;
// Sets the valid bit of a descriptor. Refusals 2, 6, 7.
pub use valid::make_valid;
// Writes the stored form into the first 101 bytes of a buffer. Refusals 1, 2, 3.
pub use form::write_form;
// Reads a stored form. Refusals 3, 4, 10, 2, 5.
pub use form::read_form;
