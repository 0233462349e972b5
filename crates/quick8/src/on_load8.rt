// The 8 bit load group.
// Here and in the groups after it: a match for each, in the last arm of the one before; the compiler makes one jump of them all. A match and
// not a table of functions: what a pointer calls can't be drawn in.
ghost use Rattle.served.specs.Served.{Fetched, Served};

use crate::entry::{
    LD_A_BC, LD_A_DA, LD_A_DE, LD_BC_A, LD_DA_A, LD_DE_A, LD_HL_N, LD_HL_R, LD_R_HL, LD_R_N,
    LD_R_R, LD_R_SX, LD_SX_N, LD_SX_R,
};
use crate::on_arith8;
use decode::op;
use load8::{ld_a_m, ld_m_a, ld_m_n, ld_m_r, ld_r_m, ld_r_n, ld_r_r};
use regs::Regs;
use served::kinds::Given;
use served::step::{either, step};

pub fn act(g: Given, r: &mut Regs, w: &mut [u8]) -> Option<()>
    requires { Fetched g.kept.now w.old g.c }
    ensures { Served g.entry.kept.now g.entry.u r.old r.new g.entry.c w.old w.new result }
{
    match decode::op_of(g.c.e) {
        op::LD_A_M if g.c.e == LD_A_DA => step(LD_A_DA, g, r, w, |t, _, _, v| ld_a_m(t, v)),
        op::LD_A_M => either(LD_A_BC, LD_A_DE, g, r, w, |t, _, _, v| ld_a_m(t, v)),
        op::LD_M_A if g.c.e == LD_DA_A => step(LD_DA_A, g, r, w, |t, _, s, _| ld_m_a(t, s)),
        op::LD_M_A => either(LD_BC_A, LD_DE_A, g, r, w, |t, _, s, _| ld_m_a(t, s)),
        op::LD_R_N => step(LD_R_N, g, r, w, |t, i, _, _| ld_r_n(t, i)),
        op::LD_M_N => either(LD_SX_N, LD_HL_N, g, r, w, |t, i, s, _| ld_m_n(t, i, s)),
        op::LD_R_R => step(LD_R_R, g, r, w, |t, i, _, _| ld_r_r(t, i)),
        op::LD_R_M => either(LD_R_SX, LD_R_HL, g, r, w, |t, i, _, v| ld_r_m(t, i, v)),
        op::LD_M_R => either(LD_SX_R, LD_HL_R, g, r, w, |t, i, s, _| ld_m_r(t, i, s)),
        _ => on_arith8::act(g, r, w),
    }
}
