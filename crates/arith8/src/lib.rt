// 8 bit arithmetic and logic: what each instruction makes of the registers, whose PC is past it already, and of its operand.
#![tactic(auto, unfolding(crate::specs::Arith8::alu_on, crate::specs::Arith8::alu_r, crate::specs::Arith8::alu_n, crate::specs::Arith8::alu_m, crate::specs::Arith8::cpl_a, crate::specs::Arith8::field_of, crate::specs::Arith8::dec_r, crate::specs::Arith8::dec_m, crate::specs::Arith8::exts_a, crate::specs::Arith8::inc_r, crate::specs::Arith8::inc_m, crate::specs::Arith8::mult_on, crate::specs::Arith8::mult_r, crate::specs::Arith8::mult_n, crate::specs::Arith8::mult_m, crate::specs::Arith8::neg_a))]

ghost use Rattle.std.specs.Prelude.{◌≡◌};
ghost use Rattle.arith8.specs.Arith8.{alu_r, alu_n, alu_m, cpl_a, field_of, dec_r, dec_m, exts_a, inc_r, inc_m, mult_on, mult_r, mult_n, mult_m, neg_a};

use plan::kinds::{Done, Ins, Spot, low8, still};
use plan::results::{into_hl, into_m, into_r};
use regs::Regs;

// ADD ADC SUB SBC AND XOR OR CP, by bits 5 to 3. `alu` is on numbers: a function on the whole record would take it through memory.
pub fn alu_r(r: Regs, i: Ins) -> Done
    ensures { result ≡ alu_r r i }
{
    let b = r.byte(i.opening, i.code % 8);
    still(r.with_af(logic::alu(i.code / 8 % 8, r.a(), b, r.f())))
}

pub fn alu_n(r: Regs, i: Ins) -> Done
    ensures { result ≡ alu_n r i }
{
    still(r.with_af(logic::alu(i.code / 8 % 8, r.a(), low8(i.arg), r.f())))
}

pub fn alu_m(r: Regs, i: Ins, v: u32) -> Done
    ensures { result ≡ alu_m r i v }
{
    still(r.with_af(logic::alu(i.code / 8 % 8, r.a(), low8(v), r.f())))
}

pub fn cpl(r: Regs) -> Done
    ensures { result ≡ cpl_a r }
{
    still(r.with_af(logic::cpl(r.a(), r.f())))
}

// The register of bits 5 to 3.
fn field(r: Regs, i: Ins) -> u8
    ensures { result ≡ field_of r i }
{
    r.byte(i.opening, i.code / 8 % 8)
}

#[inline(always)]
pub fn dec_r(r: Regs, i: Ins) -> Done
    ensures { result ≡ dec_r r i }
{
    into_r(r, i.opening, i.code / 8 % 8, sums::dec8(field(r, i), r.f()))
}

pub fn dec_m(r: Regs, s: Spot, v: u32) -> Done
    ensures { result ≡ dec_m r s v }
{
    into_m(r, s, sums::dec8(low8(v), r.f()))
}

pub fn exts_a(r: Regs) -> Done
    ensures { result ≡ exts_a r }
{
    still(r.with_hl(sums::exts8(r.a())))
}

#[inline(always)]
pub fn inc_r(r: Regs, i: Ins) -> Done
    ensures { result ≡ inc_r r i }
{
    into_r(r, i.opening, i.code / 8 % 8, sums::inc8(field(r, i), r.f()))
}

pub fn inc_m(r: Regs, s: Spot, v: u32) -> Done
    ensures { result ≡ inc_m r s v }
{
    into_m(r, s, sums::inc8(low8(v), r.f()))
}

// MULT or MULTU of the accumulator and b.
fn mult_on(r: Regs, i: Ins, b: u8) -> Done
    ensures { result ≡ mult_on r i b }
{
    let unsigned = i.code % 2 == 1;
    if unsigned {
        return into_hl(r, products::multu(r.a(), b, r.f()));
    }
    into_hl(r, products::mult(r.a(), b, r.f()))
}

pub fn mult_r(r: Regs, i: Ins) -> Done
    ensures { result ≡ mult_r r i }
{
    mult_on(r, i, field(r, i))
}

pub fn mult_n(r: Regs, i: Ins) -> Done
    ensures { result ≡ mult_n r i }
{
    mult_on(r, i, low8(i.arg))
}

pub fn mult_m(r: Regs, i: Ins, v: u32) -> Done
    ensures { result ≡ mult_m r i v }
{
    mult_on(r, i, low8(v))
}

pub fn neg_a(r: Regs) -> Done
    ensures { result ≡ neg_a r }
{
    still(r.with_af(sums::neg8(r.a(), r.f())))
}
