// Program control.
ghost use Rattle.served.specs.Served.{Fetched, Served};

use crate::entry::{
    CALL, CALL_CC, CCF, DJNZ, JP, JP_CC, JP_XX, JR, JR_CC, NOP, RET, RET_CC, RST, SCF,
};
use decode::op;
use quickbits::on_bits;
use regs::Regs;
use served::kinds::Given;
use served::step::step;

pub fn act(g: Given, r: &mut Regs, w: &mut [u8]) -> Option<()>
    requires { Fetched g.kept.now w.old g.c }
    ensures { Served g.entry.kept.now g.entry.u r.old r.new g.entry.c w.old w.new result }
{
    match decode::op_of(g.c.e) {
        op::CALL => step(CALL, g, r, w, |t, i, s, _| jump::call(t, g.u, i, s)),
        op::CALL_CC => step(CALL_CC, g, r, w, |t, i, s, _| jump::call_cc(t, g.u, i, s)),
        op::CCF => step(CCF, g, r, w, |t, _, _, _| jump::ccf(t)),
        op::DJNZ => step(DJNZ, g, r, w, |t, i, _, _| jump::djnz(t, i)),
        op::JP => step(JP, g, r, w, |t, _, s, _| jump::jp(t, s)),
        op::JP_CC => step(JP_CC, g, r, w, |t, i, s, _| jump::jp_cc(t, i, s)),
        op::JP_XX => step(JP_XX, g, r, w, |t, i, _, _| jump::jp_xx(t, i)),
        op::JR => step(JR, g, r, w, |t, i, _, _| jump::jr(t, i)),
        op::JR_CC => step(JR_CC, g, r, w, |t, i, _, _| jump::jr_cc(t, i)),
        op::RET => step(RET, g, r, w, |t, _, _, v| jump::ret(t, g.u, v)),
        op::RET_CC => step(RET_CC, g, r, w, |t, i, _, v| jump::ret_cc(t, g.u, i, v)),
        op::RST => step(RST, g, r, w, |t, i, _, _| jump::rst(t, g.u, i)),
        op::SCF => step(SCF, g, r, w, |t, _, _, _| jump::scf(t)),
        op::NOP => step(NOP, g, r, w, |t, _, _, _| jump::nop(t)),
        _ => on_bits::act(g, r, w),
    }
}
