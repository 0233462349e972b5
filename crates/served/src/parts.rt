// The parts of a quick step: its instruction with the bytes behind the code, its operand, what it writes. Each is drawn in with what the
// entry says, so that of its cases one is left.
ghost use Rattle.std.specs.Prelude.{◌≡◌, ◌≤◌, length, IfSome, IfNone};
ghost use Rattle.decode.specs.Entry.{bytes_in};
ghost use Rattle.bus.specs.Leave.{listed};
ghost use Rattle.kept.specs.Kept.{Inside, Writes};
ghost use Rattle.served.specs.Served.{Fetched, Operand, before, behind, ins_at};

use crate::kinds::Code;
use cpu::stages::ins_of;
use kept::access::{byte_at, put_one, put_two, word_at};
use plan::kinds::{Ins, Spot, Write};
use regs::Regs;

#[inline(always)]
fn displacement(c: Code, kept: &[u32; 48], w: &[u8]) -> u8
    requires { Fetched kept.now w.now c }
    ensures { result ≡ before c w.now }
{
    if c.o > 4 { w[c.p - 2] } else { 0 }
}

#[inline(always)]
fn behind(n: u8, c: Code, kept: &[u32; 48], w: &[u8]) -> u64
    requires fetched { Fetched kept.now w.now c }
    requires n_in { n ≤ 2 }
    ensures { result ≡ behind n w.now c.p }
{
    match n {
        0 => 0,
        1 => w[c.p] as u64,
        _ => w[c.p] as u64 + w[c.p + 1] as u64 * 256,
    }
}

#[inline(always)]
pub fn ins(e: u16, r: Regs, c: Code, kept: &[u32; 48], w: &[u8]) -> Ins
    requires fetched { Fetched kept.now w.now c }
    requires bytes { bytes_in e ≤ 2 }
    requires entry { c.e ≡ e }
    ensures { result ≡ ins_at (bytes_in c.e) r c w.now }
{
    let n = behind(decode::bytes_of(e), c, kept, w);
    ins_of(r, c.o, c.b, displacement(c, kept, w), e, c.at, n)
}

// No quick step reads by program.
#[inline(always)]
pub fn operand(s: Spot, kept: &[u32; 48], w: &[u8]) -> Option<u32>
    requires { Inside kept.now (length w.now) }
    ensures { IfSome result (λ v. Operand kept.now w.now s v) }
{
    if s.program {
        return None;
    }
    match s.n {
        0 => Some(0),
        1 => byte_at(kept, w, s.a),
        2 => word_at(kept, w, s.a),
        _ => None,
    }
}

// No quick step writes by program.
#[inline(always)]
pub fn store(m: Write, kept: &[u32; 48], w: &mut [u8]) -> Option<()>
    requires { Inside kept.now (length w.old) }
    ensures w_unchanged { IfNone result (w.new ≡ w.old) }
    ensures wrote { IfSome result (λ _. Writes kept.now (listed m) w.old w.new) }
{
    match m {
        Write::Nothing => Some(()),
        Write::One(false, a, b) => put_one(kept, w, a, b),
        Write::Two(false, a, v) => put_two(kept, w, a, v),
        _ => None,
    }
}
