// 16 bit arithmetic.
ghost use Rattle.served.specs.Served.{Fetched, Served};

use crate::entry::{ADC_XX_RR, ADD_XX_RR, DECW_RR, INCW_RR, SBC_XX_RR};
use crate::on_jump;
use decode::op;
use regs::Regs;
use served::kinds::Given;
use served::step::step;

pub fn act(g: Given, r: &mut Regs, w: &mut [u8]) -> Option<()>
    requires { Fetched g.kept.now w.old g.c }
    ensures { Served g.entry.kept.now g.entry.u r.old r.new g.entry.c w.old w.new result }
{
    match decode::op_of(g.c.e) {
        op::ADC_XX_RR => step(
            ADC_XX_RR,
            g,
            r,
            w,
            |t, i, _, _| arith16::adc_xx_rr(t, g.u, i),
        ),
        op::ADD_XX_RR => step(
            ADD_XX_RR,
            g,
            r,
            w,
            |t, i, _, _| arith16::add_xx_rr(t, g.u, i),
        ),
        op::DECW_RR => step(DECW_RR, g, r, w, |t, i, _, _| arith16::decw_rr(t, g.u, i)),
        op::INCW_RR => step(INCW_RR, g, r, w, |t, i, _, _| arith16::incw_rr(t, g.u, i)),
        op::SBC_XX_RR => step(
            SBC_XX_RR,
            g,
            r,
            w,
            |t, i, _, _| arith16::sbc_xx_rr(t, g.u, i),
        ),
        _ => on_jump::act(g, r, w),
    }
}
