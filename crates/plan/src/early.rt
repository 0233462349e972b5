// Stages 2 and 3 of a step: what ends before any operand is read. Operations below 24 alone can.
ghost use Rattle.std.specs.Prelude.{◌≡◌};
ghost use Rattle.plan.specs.Early.{left_out, barred, halting, port_of, event, early_of};

use crate::kinds::{Early, Ins, Stop, low8, low16};
use decode::op;
use regs::{Control, Regs};

// LDCTL whose C names a register that is not built.
#[tactic(auto, unfolding(crate::specs::Early::left_out))]
fn left_out(r: Regs, i: Ins) -> bool
    ensures { result ≡ left_out r i }
{
    let c = r.bc % 256;
    ((i.op == op::LDCTL_XX_C) | (i.op == op::LDCTL_C_XX))
        & !((c == 0) | (c == 4) | (c == 6) | (c == 8) | (c == 0x10))
}

#[tactic(auto, unfolding(crate::specs::Early::barred))]
fn is_barred(c: Control, i: Ins) -> bool
    ensures { result ≡ barred c i }
{
    c.user() & ((i.op == op::HALT) | (op::DI <= i.op) | (op::IN_N <= i.op) & (c.tcr / 4 % 2 == 1))
}

#[tactic(auto, unfolding(crate::specs::Early::halting))]
fn halt(c: Control, i: Ins) -> Early
    ensures { result ≡ halting c i }
{
    let breaks = c.msr / 0x1000 % 2 == 1;
    if breaks {
        return Early {
            pc: i.start,
            stop: Stop::Break(i.start),
        };
    }
    Early {
        pc: i.next,
        stop: Stop::Halted,
    }
}

#[tactic(auto, unfolding(crate::specs::Early::port_of))]
fn port_of(r: Regs, c: Control, i: Ins) -> u32
    ensures { result ≡ port_of r c i }
{
    let page = u32::from(c.iopage) * 65536;
    if i.op < op::IN_C {
        return page + (u32::from(r.a()) * 256 + u32::from(low8(i.arg)));
    }
    page + u32::from(r.bc)
}

// The event of an operation from 4 to 15; PC stays at the instruction but at HALT.
#[tactic(auto, unfolding(crate::specs::Early::event))]
fn event_of(r: Regs, c: Control, i: Ins) -> Option<Early>
    ensures { result ≡ event r c i }
{
    if i.op == op::HALT {
        return Some(halt(c, i));
    }
    let stop = if i.op == op::SC {
        Stop::Call(low16(i.arg), i.next)
    } else if i.op < op::DI {
        Stop::Port(port_of(r, c, i), i.op % 2 == 1)
    } else {
        return None;
    };
    Some(Early { pc: i.start, stop })
}

#[tactic(auto, unfolding(crate::specs::Early::early_of))]
pub fn early_of(r: Regs, c: Control, i: Ins) -> Option<Early>
    ensures { result ≡ early_of r c i }
{
    let stop = if left_out(r, i) {
        Stop::Nothing(i.start)
    } else if is_barred(c, i) {
        Stop::Privileged(i.start)
    } else {
        return event_of(r, c, i);
    };
    Some(Early { pc: i.start, stop })
}
