// The 8 bit load group: what each instruction makes of the registers, whose PC is past it already, and of its operand.
#![tactic(auto, unfolding(crate::specs::Load8::ex_a_r, crate::specs::Load8::ex_a_m, crate::specs::Load8::ex_h_l, crate::specs::Load8::ld_a_m, crate::specs::Load8::ld_m_a, crate::specs::Load8::ld_r_n, crate::specs::Load8::ld_m_n, crate::specs::Load8::ld_r_r, crate::specs::Load8::ld_r_m, crate::specs::Load8::ld_m_r))]

ghost use Rattle.std.specs.Prelude.{◌≡◌};
ghost use Rattle.load8.specs.Load8.{ex_a_r, ex_a_m, ex_h_l, ld_a_m, ld_m_a, ld_r_n, ld_m_n, ld_r_r, ld_r_m, ld_m_r};

use plan::kinds::{Done, Ins, Spot, immediate, low8, still, storing};
use regs::Regs;

pub fn ex_a_r(r: Regs, i: Ins) -> Done
    ensures { result ≡ ex_a_r r i }
{
    let k = i.code / 8 % 8;
    let v = r.byte(i.opening, k);
    let x = r.put_byte(i.opening, k, r.a());
    still(x.put_a(v))
}

pub fn ex_a_m(r: Regs, s: Spot, v: u32) -> Done
    ensures { result ≡ ex_a_m r s v }
{
    storing(r.put_a(low8(v)), s, r.a())
}

pub fn ex_h_l(r: Regs) -> Done
    ensures { result ≡ ex_h_l r }
{
    still(r.with_hl(r.hl % 256 * 256 + r.hl / 256))
}

pub fn ld_a_m(r: Regs, v: u32) -> Done
    ensures { result ≡ ld_a_m r v }
{
    still(r.put_a(low8(v)))
}

pub fn ld_m_a(r: Regs, s: Spot) -> Done
    ensures { result ≡ ld_m_a r s }
{
    storing(r, s, r.a())
}

pub fn ld_r_n(r: Regs, i: Ins) -> Done
    ensures { result ≡ ld_r_n r i }
{
    still(r.put_byte(i.opening, i.code / 8 % 8, low8(i.arg)))
}

pub fn ld_m_n(r: Regs, i: Ins, s: Spot) -> Done
    ensures { result ≡ ld_m_n r i s }
{
    storing(r, s, low8(immediate(i)))
}

#[inline(always)]
pub fn ld_r_r(r: Regs, i: Ins) -> Done
    ensures { result ≡ ld_r_r r i }
{
    let v = r.byte(i.opening, i.code % 8);
    still(r.put_byte(i.opening, i.code / 8 % 8, v))
}

// With a memory operand H and L are H and L under every opening.
pub fn ld_r_m(r: Regs, i: Ins, v: u32) -> Done
    ensures { result ≡ ld_r_m r i v }
{
    still(r.put_byte(0, i.code / 8 % 8, low8(v)))
}

pub fn ld_m_r(r: Regs, i: Ins, s: Spot) -> Done
    ensures { result ≡ ld_m_r r i s }
{
    storing(r, s, r.byte(0, i.code % 8))
}
