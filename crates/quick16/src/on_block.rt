// Block moves.
ghost use Rattle.served.specs.Served.{Fetched, Served};

use crate::entry::{LDI, LDIR};
use crate::on_arith16;
use decode::op;
use regs::Regs;
use served::kinds::Given;
use served::step::step;

pub fn act(g: Given, r: &mut Regs, w: &mut [u8]) -> Option<()>
    requires { Fetched g.kept.now w.old g.c }
    ensures { Served g.entry.kept.now g.entry.u r.old r.new g.entry.c w.old w.new result }
{
    match decode::op_of(g.c.e) {
        op::LDI => step(LDI, g, r, w, |t, _, _, v| block::ldi(t, v)),
        op::LDIR => step(LDIR, g, r, w, |t, i, _, v| block::ldir(t, i, v)),
        _ => on_arith16::act(g, r, w),
    }
}
