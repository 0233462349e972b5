// BIT, RES, SET, TSET, rotates and shifts of a register or of a byte in memory.
#![tactic(auto, unfolding(crate::specs::Bits::bit_r, crate::specs::Bits::bit_m, crate::specs::Bits::res_r, crate::specs::Bits::res_m, crate::specs::Bits::rot_r, crate::specs::Bits::rot_m, crate::specs::Bits::rot_a, crate::specs::Bits::set_r, crate::specs::Bits::set_m, crate::specs::Bits::tset_r, crate::specs::Bits::tset_m))]

ghost use Rattle.std.specs.Prelude.{◌≡◌};
ghost use Rattle.bits.specs.Bits.{held, bit_r, bit_m, res_r, res_m, rot_r, rot_m, rot_a, set_r, set_m, tset_r, tset_m};

use plan::kinds::{Done, Ins, Spot, low8, still, storing};
use plan::results::{into_m, into_r};
use regs::Regs;

fn held_by(r: Regs, i: Ins) -> u8
    ensures { result ≡ held r i }
{
    r.byte(0, i.code % 8)
}

pub fn bit_r(r: Regs, i: Ins) -> Done
    ensures { result ≡ bit_r r i }
{
    still(r.with_f(logic::bit_test(i.code / 8 % 8, held_by(r, i), r.f())))
}

pub fn bit_m(r: Regs, i: Ins, v: u32) -> Done
    ensures { result ≡ bit_m r i v }
{
    still(r.with_f(logic::bit_test(i.code / 8 % 8, low8(v), r.f())))
}

#[inline(always)]
pub fn res_r(r: Regs, i: Ins) -> Done
    ensures { result ≡ res_r r i }
{
    still(r.put_byte(0, i.code % 8, logic::res(i.code / 8 % 8, held_by(r, i))))
}

pub fn res_m(r: Regs, i: Ins, s: Spot, v: u32) -> Done
    ensures { result ≡ res_m r i s v }
{
    storing(r, s, logic::res(i.code / 8 % 8, low8(v)))
}

#[inline(always)]
pub fn rot_r(r: Regs, i: Ins) -> Done
    ensures { result ≡ rot_r r i }
{
    into_r(
        r,
        0,
        i.code % 8,
        logic::rotate(i.code / 8 % 8, held_by(r, i), r.f()),
    )
}

pub fn rot_m(r: Regs, i: Ins, s: Spot, v: u32) -> Done
    ensures { result ≡ rot_m r i s v }
{
    into_m(r, s, logic::rotate(i.code / 8 % 8, low8(v), r.f()))
}

pub fn rot_a(r: Regs, i: Ins) -> Done
    ensures { result ≡ rot_a r i }
{
    still(r.with_af(logic::rotate_a(i.code / 8 % 8, r.a(), r.f())))
}

#[inline(always)]
pub fn set_r(r: Regs, i: Ins) -> Done
    ensures { result ≡ set_r r i }
{
    still(r.put_byte(0, i.code % 8, logic::set(i.code / 8 % 8, held_by(r, i))))
}

pub fn set_m(r: Regs, i: Ins, s: Spot, v: u32) -> Done
    ensures { result ≡ set_m r i s v }
{
    storing(r, s, logic::set(i.code / 8 % 8, low8(v)))
}

pub fn tset_r(r: Regs, i: Ins) -> Done
    ensures { result ≡ tset_r r i }
{
    into_r(r, 0, i.code % 8, logic::rotate(6, held_by(r, i), r.f()))
}

pub fn tset_m(r: Regs, s: Spot, v: u32) -> Done
    ensures { result ≡ tset_m r s v }
{
    into_m(r, s, logic::rotate(6, low8(v), r.f()))
}
