// The privileged instructions that change control registers or the user stack pointer.
#![tactic(auto, unfolding(crate::specs::Govern::disabled, crate::specs::Govern::enabled, crate::specs::Govern::di_of, crate::specs::Govern::ei_of, crate::specs::Govern::di_n, crate::specs::Govern::ei_n, crate::specs::Govern::control_at, crate::specs::Govern::put_control_at, crate::specs::Govern::ldctl_xx_c, crate::specs::Govern::ldctl_c_xx, crate::specs::Govern::ldctl_usp, crate::specs::Govern::retil_of, crate::specs::Govern::governing_by, crate::specs::Govern::govern_of))]

ghost use Rattle.std.specs.Prelude.{◌≡◌};
ghost use Rattle.govern.specs.Govern.{ending, masked, disabled, enabled, di_of, ei_of, di_n, ei_n, control_at, put_control_at, ldctl_xx_c, ldctl_c_xx, ldctl_usp, retil_of, govern_of};

use decode::op;
use plan::kinds::{Governed, Ins, low8, low16, plus16};
use regs::select::low_of;
use regs::{Control, Regs};

fn end(r: Regs, c: Control) -> Governed
    ensures { result ≡ ending r c }
{
    Governed { regs: r, ctl: c }
}

// The mask byte without its bit 7.
fn mask_of(i: Ins) -> u16
    ensures { result ≡ masked i }
{
    (low8(i.arg) % 128) as u16
}

fn disable(n: u16, c: Control) -> Control
    ensures { result ≡ disabled n c }
{
    c.load_msr(c.msr & (0xFFFF - n))
}

fn enable(n: u16, c: Control) -> Control
    ensures { result ≡ enabled n c }
{
    c.load_msr(c.msr | n)
}

pub fn di(r: Regs, c: Control) -> Governed
    ensures { result ≡ di_of r c }
{
    end(r, disable(0x7F, c))
}

pub fn ei(r: Regs, c: Control) -> Governed
    ensures { result ≡ ei_of r c }
{
    end(r, enable(0x7F, c))
}

pub fn di_n(r: Regs, c: Control, i: Ins) -> Governed
    ensures { result ≡ di_n r c i }
{
    end(r, disable(mask_of(i), c))
}

pub fn ei_n(r: Regs, c: Control, i: Ins) -> Governed
    ensures { result ≡ ei_n r c i }
{
    end(r, enable(mask_of(i), c))
}

// The control register at the address k, a number of the manual's that the guest has in C; d where there is none.
fn control_at(k: u8, c: Control, d: u16) -> u16
    ensures { result ≡ control_at k c d }
{
    match k {
        0x00 => c.msr,
        0x04 => c.limit,
        0x06 => c.vector,
        0x08 => c.iopage as u16,
        0x10 => c.tcr as u16,
        _ => d,
    }
}

fn put_control_at(k: u8, v: u16, c: Control) -> Control
    ensures { result ≡ put_control_at k v c }
{
    match k {
        0x00 => c.load_msr(v),
        0x04 => c.load_limit(v),
        0x06 => c.load_vector(v),
        0x08 => c.load_iopage(v),
        0x10 => c.load_tcr(v),
        _ => c,
    }
}

pub fn ldctl_xx_c(r: Regs, c: Control, i: Ins) -> Governed
    ensures { result ≡ ldctl_xx_c r c i }
{
    end(
        r.put_index(i.opening, control_at(low_of(r.bc), c, r.index(i.opening))),
        c,
    )
}

pub fn ldctl_c_xx(r: Regs, c: Control, i: Ins) -> Governed
    ensures { result ≡ ldctl_c_xx r c i }
{
    end(r, put_control_at(low_of(r.bc), r.index(i.opening), c))
}

pub fn ldctl_usp(r: Regs, c: Control, i: Ins) -> Governed
    ensures { result ≡ ldctl_usp r c i }
{
    let from = i.code / 8 % 2 == 0;
    if from {
        return end(r.put_index(i.opening, r.usp), c);
    }
    end(r.with_usp(r.index(i.opening)), c)
}

// Privileged, so the stack is the system's.
pub fn retil(r: Regs, c: Control, v: u32) -> Governed
    ensures { result ≡ retil_of r c v }
{
    let msr = low16(v);
    let pc = low16(v / 65536);
    end(r.with_ssp(plus16(r.ssp, 4)).with_pc(pc), c.load_msr(msr))
}

// Operations 16 to 23; no other governs.
pub fn govern(r: Regs, c: Control, i: Ins, v: u32) -> Governed
    ensures { result ≡ govern_of r c i v }
{
    match i.op {
        op::DI => di(r, c),
        op::EI => ei(r, c),
        op::DI_N => di_n(r, c, i),
        op::EI_N => ei_n(r, c, i),
        op::LDCTL_XX_C => ldctl_xx_c(r, c, i),
        op::LDCTL_C_XX => ldctl_c_xx(r, c, i),
        op::LDCTL_USP => ldctl_usp(r, c, i),
        op::RETIL => retil(r, c, v),
        _ => end(r, c),
    }
}
