// 16 bit arithmetic: what each instruction makes of the registers, whose PC is past it already, and of its operand.
#![tactic(auto, unfolding(crate::specs::Arith16::field_of, crate::specs::Arith16::put_xx, crate::specs::Arith16::adc_xx_rr, crate::specs::Arith16::add_xx_rr, crate::specs::Arith16::add_xx_a, crate::specs::Arith16::aluw_by, crate::specs::Arith16::aluw_on, crate::specs::Arith16::aluw_rr, crate::specs::Arith16::aluw_nn, crate::specs::Arith16::aluw_m, crate::specs::Arith16::decw_rr, crate::specs::Arith16::decw_m, crate::specs::Arith16::exts_hl, crate::specs::Arith16::incw_rr, crate::specs::Arith16::incw_m, crate::specs::Arith16::put_product, crate::specs::Arith16::multw_on, crate::specs::Arith16::multw_rr, crate::specs::Arith16::multw_nn, crate::specs::Arith16::multw_m, crate::specs::Arith16::neg_hl, crate::specs::Arith16::sbc_xx_rr))]

ghost use Rattle.std.specs.Prelude.{◌≡◌};
ghost use Rattle.arith16.specs.Arith16.{field_of, put_xx, adc_xx_rr, add_xx_rr, add_xx_a, aluw_by, aluw_rr, aluw_nn, aluw_m, decw_rr, decw_m, with_long, exts_hl, incw_rr, incw_m, put_product, multw_on, multw_rr, multw_nn, multw_m, neg_hl, sbc_xx_rr};

use plan::kinds::{Done, Ins, Spot, low16, still, storing_word};
use plan::results::into_hl;
use regs::Regs;
use sums::WithF;

// The register pair of bits 5 and 4.
fn field(r: Regs, u: bool, i: Ins) -> u16
    ensures { result ≡ field_of r u i }
{
    r.pair(u, i.opening, i.code / 16 % 4)
}

fn put_xx(r: Regs, i: Ins, x: WithF<u16>) -> Done
    ensures { result ≡ put_xx r i x }
{
    still(r.with_f(x.f).put_index(i.opening, x.value))
}

pub fn adc_xx_rr(r: Regs, u: bool, i: Ins) -> Done
    ensures { result ≡ adc_xx_rr r u i }
{
    put_xx(r, i, sums::adc16(r.index(i.opening), field(r, u, i), r.f()))
}

pub fn add_xx_rr(r: Regs, u: bool, i: Ins) -> Done
    ensures { result ≡ add_xx_rr r u i }
{
    put_xx(
        r,
        i,
        sums::add_hl(r.index(i.opening), field(r, u, i), r.f()),
    )
}

pub fn add_xx_a(r: Regs, i: Ins) -> Done
    ensures { result ≡ add_xx_a r i }
{
    put_xx(r, i, sums::add_a(r.index(i.opening), r.a(), r.f()))
}

// CPW, SUBW or ADDW of a and b, on numbers: a function on the whole record would take it through memory.
fn aluw(code: u8, a: u16, b: u16, f: u8) -> WithF<u16>
    ensures { result ≡ aluw_by code a b f }
{
    let compares = code % 2 == 1;
    if compares {
        return WithF {
            value: a,
            f: sums::cpw(a, b, f),
        };
    }
    let subtracts = code / 8 % 2 == 1;
    if subtracts {
        return sums::subw(a, b, f);
    }
    sums::addw(a, b, f)
}

pub fn aluw_rr(r: Regs, u: bool, i: Ins) -> Done
    ensures { result ≡ aluw_rr r u i }
{
    into_hl(r, aluw(i.code, r.hl, field(r, u, i), r.f()))
}

pub fn aluw_nn(r: Regs, i: Ins) -> Done
    ensures { result ≡ aluw_nn r i }
{
    into_hl(r, aluw(i.code, r.hl, low16(i.arg), r.f()))
}

pub fn aluw_m(r: Regs, i: Ins, v: u32) -> Done
    ensures { result ≡ aluw_m r i v }
{
    into_hl(r, aluw(i.code, r.hl, low16(v), r.f()))
}

pub fn decw_rr(r: Regs, u: bool, i: Ins) -> Done
    ensures { result ≡ decw_rr r u i }
{
    still(r.put_pair(
        u,
        i.opening,
        i.code / 16 % 4,
        field(r, u, i).wrapping_sub(1),
    ))
}

pub fn decw_m(r: Regs, s: Spot, v: u32) -> Done
    ensures { result ≡ decw_m r s v }
{
    storing_word(r, s, low16(v).wrapping_sub(1))
}

// DE the high half, HL the low.
fn with_long(r: Regs, x: u32) -> Regs
    ensures { result ≡ with_long x r }
{
    r.with_de((x / 65536) as u16).with_hl(low16(x))
}

pub fn exts_hl(r: Regs) -> Done
    ensures { result ≡ exts_hl r }
{
    still(with_long(r, sums::exts16(r.hl)))
}

pub fn incw_rr(r: Regs, u: bool, i: Ins) -> Done
    ensures { result ≡ incw_rr r u i }
{
    still(r.put_pair(
        u,
        i.opening,
        i.code / 16 % 4,
        field(r, u, i).wrapping_add(1),
    ))
}

pub fn incw_m(r: Regs, s: Spot, v: u32) -> Done
    ensures { result ≡ incw_m r s v }
{
    storing_word(r, s, low16(v).wrapping_add(1))
}

fn put_product(r: Regs, x: WithF<u32>) -> Done
    ensures { result ≡ put_product r x }
{
    still(with_long(r.with_f(x.f), x.value))
}

// MULTW or MULTUW of HL and b.
fn multw_on(r: Regs, i: Ins, b: u16) -> Done
    ensures { result ≡ multw_on r i b }
{
    let unsigned = i.code % 2 == 1;
    if unsigned {
        return put_product(r, products::multu(r.hl, b, r.f()));
    }
    put_product(r, products::mult(r.hl, b, r.f()))
}

pub fn multw_rr(r: Regs, u: bool, i: Ins) -> Done
    ensures { result ≡ multw_rr r u i }
{
    multw_on(r, i, field(r, u, i))
}

pub fn multw_nn(r: Regs, i: Ins) -> Done
    ensures { result ≡ multw_nn r i }
{
    multw_on(r, i, low16(i.arg))
}

pub fn multw_m(r: Regs, i: Ins, v: u32) -> Done
    ensures { result ≡ multw_m r i v }
{
    multw_on(r, i, low16(v))
}

pub fn neg_hl(r: Regs) -> Done
    ensures { result ≡ neg_hl r }
{
    into_hl(r, sums::negw(r.hl, r.f()))
}

pub fn sbc_xx_rr(r: Regs, u: bool, i: Ins) -> Done
    ensures { result ≡ sbc_xx_rr r u i }
{
    put_xx(r, i, sums::sbc16(r.index(i.opening), field(r, u, i), r.f()))
}
