// Program control and NOP: jumps, calls, returns and the carry flag. PC is past the instruction already.
#![tactic(auto, unfolding(crate::specs::Jump::jumping, crate::specs::Jump::calling, crate::specs::Jump::popping, crate::specs::Jump::call_of, crate::specs::Jump::call_cc, crate::specs::Jump::ccf_of, crate::specs::Jump::djnz_of, crate::specs::Jump::jaf_of, crate::specs::Jump::jar_of, crate::specs::Jump::jp_of, crate::specs::Jump::jp_cc, crate::specs::Jump::jp_xx, crate::specs::Jump::jr_of, crate::specs::Jump::jr_cc, crate::specs::Jump::ret_of, crate::specs::Jump::ret_cc, crate::specs::Jump::rst_of, crate::specs::Jump::scf_of, crate::specs::Jump::nop_of))]

ghost use Rattle.std.specs.Prelude.{◌≡◌};
ghost use Rattle.jump.specs.Jump.{relative, jumping, calling, popping, call_of, call_cc, ccf_of, djnz_of, jaf_of, jar_of, jp_of, jp_cc, jp_xx, jr_of, jr_cc, ret_of, ret_cc, rst_of, scf_of, nop_of};

use plan::kinds::{Done, Ins, Spot, low8, low16, still};
use plan::places::is_met;
use plan::stack::{pop, push};
use regs::Regs;
use regs::select::{high_of, put_high};

// The destination of a jump by 8 bits.
fn relative_to(i: Ins) -> u16
    ensures { result ≡ relative i }
{
    products::displace(i.next, low8(i.arg))
}

fn jump_if(r: Regs, t: bool, a: u16) -> Done
    ensures { result ≡ jumping r t a }
{
    if t {
        return still(r.with_pc(a));
    }
    still(r)
}

fn call_to(r: Regs, u: bool, i: Ins, a: u16) -> Done
    ensures { result ≡ calling r u i a }
{
    push(r.with_pc(a), u, i.next)
}

fn return_by(r: Regs, u: bool, v: u32) -> Done
    ensures { result ≡ popping r u v }
{
    still(pop(r.with_pc(low16(v)), u))
}

pub fn call(r: Regs, u: bool, i: Ins, s: Spot) -> Done
    ensures { result ≡ call_of r u i s }
{
    call_to(r, u, i, s.a)
}

pub fn call_cc(r: Regs, u: bool, i: Ins, s: Spot) -> Done
    ensures { result ≡ call_cc r u i s }
{
    let t = is_met(r, i);
    if t {
        return call_to(r, u, i, s.a);
    }
    still(r)
}

pub fn ccf(r: Regs) -> Done
    ensures { result ≡ ccf_of r }
{
    still(r.with_f(logic::ccf(r.f())))
}

pub fn djnz(r: Regs, i: Ins) -> Done
    ensures { result ≡ djnz_of r i }
{
    let b = ((high_of(r.bc) as u16 + 255) % 256) as u8;
    jump_if(r.with_bc(put_high(b, r.bc)), b != 0, relative_to(i))
}

pub fn jaf(r: Regs, i: Ins) -> Done
    ensures { result ≡ jaf_of r i }
{
    jump_if(r, r.bankaf, relative_to(i))
}

pub fn jar(r: Regs, i: Ins) -> Done
    ensures { result ≡ jar_of r i }
{
    jump_if(r, r.bankx, relative_to(i))
}

pub fn jp(r: Regs, s: Spot) -> Done
    ensures { result ≡ jp_of r s }
{
    still(r.with_pc(s.a))
}

pub fn jp_cc(r: Regs, i: Ins, s: Spot) -> Done
    ensures { result ≡ jp_cc r i s }
{
    jump_if(r, is_met(r, i), s.a)
}

pub fn jp_xx(r: Regs, i: Ins) -> Done
    ensures { result ≡ jp_xx r i }
{
    still(r.with_pc(r.index(i.opening)))
}

pub fn jr(r: Regs, i: Ins) -> Done
    ensures { result ≡ jr_of r i }
{
    still(r.with_pc(relative_to(i)))
}

// Two bits of condition: NZ Z NC C.
pub fn jr_cc(r: Regs, i: Ins) -> Done
    ensures { result ≡ jr_cc r i }
{
    jump_if(r, r.condition(i.code / 8 % 4), relative_to(i))
}

pub fn ret(r: Regs, u: bool, v: u32) -> Done
    ensures { result ≡ ret_of r u v }
{
    return_by(r, u, v)
}

// Where the condition does not hold nothing was read.
pub fn ret_cc(r: Regs, u: bool, i: Ins, v: u32) -> Done
    ensures { result ≡ ret_cc r u i v }
{
    let t = is_met(r, i);
    if t {
        return return_by(r, u, v);
    }
    still(r)
}

pub fn rst(r: Regs, u: bool, i: Ins) -> Done
    ensures { result ≡ rst_of r u i }
{
    call_to(r, u, i, (i.code / 8 % 8 * 8) as u16)
}

pub fn scf(r: Regs) -> Done
    ensures { result ≡ scf_of r }
{
    still(r.with_f(logic::scf(r.f())))
}

pub fn nop(r: Regs) -> Done
    ensures { result ≡ nop_of r }
{
    still(r)
}
