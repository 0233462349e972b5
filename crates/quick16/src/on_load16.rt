// The 16 bit load group: words, exchanges and the stack.
ghost use Rattle.served.specs.Served.{Fetched, Served};

use crate::entry::{
    EX_DE_HL, EX_SP, LD_DA_RR, LD_DA_XX, LD_RR_DA, LD_RR_NN, LD_SP_XX, LD_XX_DA, POP_RR, PUSH_RR,
};
use crate::on_block;
use decode::op;
use load16::{exchange, stack, word};
use regs::Regs;
use served::kinds::Given;
use served::step::step;

pub fn act(g: Given, r: &mut Regs, w: &mut [u8]) -> Option<()>
    requires { Fetched g.kept.now w.old g.c }
    ensures { Served g.entry.kept.now g.entry.u r.old r.new g.entry.c w.old w.new result }
{
    match decode::op_of(g.c.e) {
        op::EX_DE_HL => step(EX_DE_HL, g, r, w, |t, _, _, _| exchange::ex_de_hl(t)),
        op::EX_SP => step(EX_SP, g, r, w, |t, i, s, v| exchange::ex_sp(t, i, s, v)),
        op::LD_XX_M => step(LD_XX_DA, g, r, w, |t, i, _, v| word::ld_xx_m(t, i, v)),
        op::LD_M_XX => step(LD_DA_XX, g, r, w, |t, i, s, _| word::ld_m_xx(t, i, s)),
        op::LD_RR_NN => step(LD_RR_NN, g, r, w, |t, i, _, _| word::ld_rr_nn(t, g.u, i)),
        op::LD_RR_M => step(LD_RR_DA, g, r, w, |t, i, _, v| word::ld_rr_m(t, g.u, i, v)),
        op::LD_M_RR => step(LD_DA_RR, g, r, w, |t, i, s, _| word::ld_m_rr(t, g.u, i, s)),
        op::LD_SP_XX => step(LD_SP_XX, g, r, w, |t, i, _, _| word::ld_sp_xx(t, g.u, i)),
        op::POP_RR => step(POP_RR, g, r, w, |t, i, _, v| stack::pop_rr(t, g.u, i, v)),
        op::PUSH_RR => step(PUSH_RR, g, r, w, |t, i, _, _| stack::push_rr(t, g.u, i)),
        _ => on_block::act(g, r, w),
    }
}
