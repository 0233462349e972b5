// 8 bit arithmetic and logic.
ghost use Rattle.served.specs.Served.{Fetched, Served};

use crate::entry::{
    ALU_HL, ALU_N, ALU_R, ALU_SX, CPL, DEC_HL, DEC_R, DEC_SX, INC_HL, INC_R, INC_SX, NEG_A,
};
use decode::op;
use quick16::on_load16;
use regs::Regs;
use served::kinds::Given;
use served::step::{either, step};

pub fn act(g: Given, r: &mut Regs, w: &mut [u8]) -> Option<()>
    requires { Fetched g.kept.now w.old g.c }
    ensures { Served g.entry.kept.now g.entry.u r.old r.new g.entry.c w.old w.new result }
{
    match decode::op_of(g.c.e) {
        op::ALU_R => step(ALU_R, g, r, w, |t, i, _, _| arith8::alu_r(t, i)),
        op::ALU_N => step(ALU_N, g, r, w, |t, i, _, _| arith8::alu_n(t, i)),
        op::ALU_M => either(ALU_SX, ALU_HL, g, r, w, |t, i, _, v| arith8::alu_m(t, i, v)),
        op::CPL => step(CPL, g, r, w, |t, _, _, _| arith8::cpl(t)),
        op::DEC_R => step(DEC_R, g, r, w, |t, i, _, _| arith8::dec_r(t, i)),
        op::DEC_M => either(DEC_SX, DEC_HL, g, r, w, |t, _, s, v| arith8::dec_m(t, s, v)),
        op::INC_R => step(INC_R, g, r, w, |t, i, _, _| arith8::inc_r(t, i)),
        op::INC_M => either(INC_SX, INC_HL, g, r, w, |t, _, s, v| arith8::inc_m(t, s, v)),
        op::NEG_A => step(NEG_A, g, r, w, |t, _, _, _| arith8::neg_a(t)),
        _ => on_load16::act(g, r, w),
    }
}
