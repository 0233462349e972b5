// The operand's place by the addressing mode.
ghost use Rattle.std.specs.Prelude.{◌≡◌};
ghost use Rattle.plan.specs.Places.{data_at, code_at, met, returning, spot_of};

use crate::kinds::{Ins, Spot, low8, low16, plus16};
use decode::mode;
use regs::Regs;

#[inline(always)]
pub fn data_at(n: u8, a: u16) -> Spot
    ensures { result ≡ data_at n a }
{
    Spot {
        program: false,
        a,
        n,
    }
}

pub fn code_at(n: u8, a: u16) -> Spot
    ensures { result ≡ code_at n a }
{
    Spot {
        program: true,
        a,
        n,
    }
}

// The condition in the operation code: NZ Z NC C PO PE P M.
pub fn is_met(r: Regs, i: Ins) -> bool
    ensures { result ≡ met r i }
{
    r.condition(i.code / 8 % 8)
}

// RET cc.
#[inline(always)]
fn return_spot(u: bool, r: Regs, i: Ins) -> Spot
    ensures { result ≡ returning u r i }
{
    let t = is_met(r, i);
    if t {
        return data_at(2, r.sp(u));
    }
    data_at(0, r.sp(u))
}

#[inline(always)]
pub fn spot_of(u: bool, r: Regs, i: Ins) -> Spot
    ensures { result ≡ spot_of u r i }
{
    let n = i.reads;
    match i.mode {
        mode::NO => data_at(n, 0),
        mode::IR => data_at(n, r.hl),
        mode::DA => data_at(n, low16(i.arg)),
        mode::SX => data_at(n, products::displace(r.index(i.opening), low8(i.arg))),
        mode::X_IX => data_at(n, plus16(r.ix, low16(i.arg))),
        mode::X_IY => data_at(n, plus16(r.iy, low16(i.arg))),
        mode::X_HL => data_at(n, plus16(r.hl, low16(i.arg))),
        mode::RA => code_at(n, plus16(i.next, low16(i.arg))),
        mode::SR => data_at(n, plus16(r.sp(u), low16(i.arg))),
        mode::BX_HL_IX => data_at(n, plus16(r.hl, r.ix)),
        mode::BX_HL_IY => data_at(n, plus16(r.hl, r.iy)),
        mode::BX_IX_IY => data_at(n, plus16(r.ix, r.iy)),
        mode::AT_BC => data_at(n, r.bc),
        mode::AT_DE => data_at(n, r.de),
        mode::AT_SP => data_at(n, r.sp(u)),
        mode::AT_SP_CC => return_spot(u, r, i),
        _ => data_at(n, 0),
    }
}
