// The printing program's answer to its input, on slices: a stored form, then exactly its frames, then 1,000 steps.
ghost use Rattle.std.specs.Prelude.{◌≡◌};
ghost use Rattle.line.specs.Line.{shows};
ghost use Rattle.show.specs.Image.{outcome, shown_of};

use events::Numbered;
use form::LENGTH;
use legal::refusal::Refusal;
use line::End;

const STEPS: u16 = 1000;

// Memory is run where it stands in the input.
#[tactic(auto, using(crate::proofs::Laws::short_3, crate::proofs::Laws::form_refused))]
pub fn show(input: &mut [u8]) -> Result<End, Refusal>
    ensures { outcome (shows result) input.new ≡ shown_of input.old }
{
    if input.len() < LENGTH {
        return Err(Refusal::BufferLength);
    }
    let a = form::read_form(&input[..LENGTH])?;
    let w = &mut input[LENGTH..];
    if w.len() != a.frames as usize * 4096 {
        return Err(Refusal::MemoryLength);
    }
    let r = host::run(a.machine, w, STEPS)?;
    let n = Numbered::from(r.event);
    Ok(End {
        event: n.number,
        steps: r.steps,
        pc: r.machine.regs.pc,
    })
}
