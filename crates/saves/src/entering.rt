// The vector, and the new status that it holds.
ghost use Rattle.std.specs.Prelude.{◌≡◌, ◌<◌, ◌+◌, length};
ghost use Rattle.saves.specs.Saves.{vector_at};
ghost use Rattle.saves.specs.Words.{word_in, entering};

use regs::{Control, Machine};

pub fn vector_at(c: Control, offset: u16) -> usize
    ensures value { result ≡ vector_at c offset }
    ensures upper_bound { result < 0x1010000 }
{
    (c.vector / 16) as usize * 4096 + offset as usize
}

fn word_in(w: &[u8], i: usize) -> u16
    requires { i + 1 < length w.now }
    ensures { result ≡ word_in w.now i }
{
    u16::from_le_bytes([w[i], w[i + 1]])
}

// The new status from the vector at i, over descriptors and memory as the pushes left them.
#[tactic(auto, unfolding(crate::specs::Words::entering))]
pub fn enter(m: Machine, ds: [u16; 32], w: &[u8], sp: u16, i: usize) -> Machine
    requires { i + 3 < length w.now }
    ensures { result ≡ entering m ds w.now sp i }
{
    let msr = word_in(w, i);
    let pc = word_in(w, i + 2);
    let regs = m.regs.with_ssp(sp).with_pc(pc);
    let ctl = m.ctl.load_msr(msr);
    Machine {
        regs,
        ctl,
        mmu: m.mmu,
        ds,
    }
}
