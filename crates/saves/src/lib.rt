// Saving status on the system stack and entering the service routine. All places are found before a byte changes.
#![tactic(auto)]

mod entering;
mod places;
mod pushing;

ghost use Rattle.std.specs.Prelude.{◌≡◌, ◌<◌, ◌^◌};
ghost use Rattle.saves.specs.Saves.{outcome, saved};

use crate::entering::{enter, vector_at};
use crate::places::words_for;
use crate::pushing::push_all;
use legal::refusal::{Refusal, Refused};
use regs::Machine;

// Pushes the words, and takes the new status from the vector at an offset. Refused, it changes no byte and hands the record back.
pub fn save<const N: usize>(
    m: Machine,
    w: &mut [u8],
    offset: u16,
    words: [u16; N],
) -> Result<Machine, Refused>
    requires { N < 2 ^ 32 }
    ensures { outcome result w.new ≡ saved m w.old offset words.entry }
{
    let i = vector_at(m.ctl, offset);
    if i + 3 >= w.len() {
        return Err(Refusal::Fatal.beside(m));
    }
    let mut ds = m.ds;
    let Some(xs) = words_for(m.mmu, &ds, w.len(), m.regs.ssp, words) else {
        return Err(Refusal::Fatal.beside(m));
    };
    let sp = push_all(m.mmu, &mut ds, w, m.regs.ssp, &xs);
    let next = enter(m, ds, w, sp, i);
    Ok(next)
}
