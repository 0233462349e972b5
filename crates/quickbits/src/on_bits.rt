// Bits, rotates and shifts.
ghost use Rattle.served.specs.Served.{Fetched, Served};

use crate::entry::{
    BIT_HL, BIT_R, BIT_SX, RES_HL, RES_R, RES_SX, ROT_A, ROT_HL, ROT_R, ROT_SX, SET_HL, SET_R,
    SET_SX,
};
use bits::{bit_m, bit_r, res_m, res_r, rot_a, rot_m, rot_r, set_m, set_r};
use decode::op;
use regs::Regs;
use served::kinds::Given;
use served::step::{either, step};

pub fn act(g: Given, r: &mut Regs, w: &mut [u8]) -> Option<()>
    requires { Fetched g.kept.now w.old g.c }
    ensures { Served g.entry.kept.now g.entry.u r.old r.new g.entry.c w.old w.new result }
{
    match decode::op_of(g.c.e) {
        op::BIT_R => step(BIT_R, g, r, w, |t, i, _, _| bit_r(t, i)),
        op::BIT_M => either(BIT_SX, BIT_HL, g, r, w, |t, i, _, v| bit_m(t, i, v)),
        op::RES_R => step(RES_R, g, r, w, |t, i, _, _| res_r(t, i)),
        op::RES_M => either(RES_SX, RES_HL, g, r, w, |t, i, s, v| res_m(t, i, s, v)),
        op::ROT_R => step(ROT_R, g, r, w, |t, i, _, _| rot_r(t, i)),
        op::ROT_M => either(ROT_SX, ROT_HL, g, r, w, |t, i, s, v| rot_m(t, i, s, v)),
        op::ROT_A => step(ROT_A, g, r, w, |t, i, _, _| rot_a(t, i)),
        op::SET_R => step(SET_R, g, r, w, |t, i, _, _| set_r(t, i)),
        op::SET_M => either(SET_SX, SET_HL, g, r, w, |t, i, s, v| set_m(t, i, s, v)),
        _ => None,
    }
}
