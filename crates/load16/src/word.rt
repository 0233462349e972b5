// LD on words, and LDA. Where SP is named it is the stack pointer of the mode.
ghost use Rattle.std.specs.Prelude.{◌≡◌};
ghost use Rattle.load16.specs.Word.{ld_xx_m, ld_m_xx, ld_rr_nn, ld_rr_m, ld_m_rr, ldw_m_nn, ld_sp_xx, lda_of};

use plan::kinds::{Done, Ins, Spot, immediate, low16, still, storing_word};
use regs::Regs;

pub fn ld_xx_m(r: Regs, i: Ins, v: u32) -> Done
    ensures { result ≡ ld_xx_m r i v }
{
    still(r.put_index(i.opening, low16(v)))
}

pub fn ld_m_xx(r: Regs, i: Ins, s: Spot) -> Done
    ensures { result ≡ ld_m_xx r i s }
{
    storing_word(r, s, r.index(i.opening))
}

pub fn ld_rr_nn(r: Regs, u: bool, i: Ins) -> Done
    ensures { result ≡ ld_rr_nn r u i }
{
    still(r.put_pair(u, i.opening, i.code / 16 % 4, low16(i.arg)))
}

// With a memory operand HL is HL under every opening.
pub fn ld_rr_m(r: Regs, u: bool, i: Ins, v: u32) -> Done
    ensures { result ≡ ld_rr_m r u i v }
{
    still(r.put_pair(u, 0, i.code / 16 % 4, low16(v)))
}

pub fn ld_m_rr(r: Regs, u: bool, i: Ins, s: Spot) -> Done
    ensures { result ≡ ld_m_rr r u i s }
{
    storing_word(r, s, r.pair(u, 0, i.code / 16 % 4))
}

pub fn ldw_m_nn(r: Regs, i: Ins, s: Spot) -> Done
    ensures { result ≡ ldw_m_nn r i s }
{
    storing_word(r, s, low16(immediate(i)))
}

pub fn ld_sp_xx(r: Regs, u: bool, i: Ins) -> Done
    ensures { result ≡ ld_sp_xx r u i }
{
    still(r.put_sp(u, r.index(i.opening)))
}

pub fn lda(r: Regs, i: Ins, s: Spot) -> Done
    ensures { result ≡ lda_of r i s }
{
    still(r.put_index(i.opening, s.a))
}
