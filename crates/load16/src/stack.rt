// PUSH and POP on the stack of the mode.
ghost use Rattle.std.specs.Prelude.{◌≡◌};
ghost use Rattle.load16.specs.Stack.{pop_spot, pop_rr, pop_m, push_rr, push_nn, push_m};

use plan::kinds::{Done, Ins, Spot, low16, plus16, still, storing_word};
use plan::places::{code_at, data_at};
use plan::stack::{pop, push};
use regs::Regs;

// Where POP to memory writes, by two bits of the operation code: a number, as the definition has it.
fn pop_spot(r: Regs, i: Ins) -> Spot
    ensures { result ≡ pop_spot r i }
{
    match i.code / 16 % 4 {
        0 => data_at(0, r.hl),
        1 => data_at(0, low16(i.arg)),
        _ => code_at(0, plus16(i.next, low16(i.arg))),
    }
}

pub fn pop_rr(r: Regs, u: bool, i: Ins, v: u32) -> Done
    ensures { result ≡ pop_rr r u i v }
{
    let x = pop(r, u);
    still(x.put_stacked(i.opening, i.code / 16 % 4, low16(v)))
}

pub fn pop_m(r: Regs, u: bool, i: Ins, v: u32) -> Done
    ensures { result ≡ pop_m r u i v }
{
    storing_word(pop(r, u), pop_spot(r, i), low16(v))
}

pub fn push_rr(r: Regs, u: bool, i: Ins) -> Done
    ensures { result ≡ push_rr r u i }
{
    push(r, u, r.stacked(i.opening, i.code / 16 % 4))
}

pub fn push_nn(r: Regs, u: bool, i: Ins) -> Done
    ensures { result ≡ push_nn r u i }
{
    push(r, u, low16(i.arg))
}

pub fn push_m(r: Regs, u: bool, v: u32) -> Done
    ensures { result ≡ push_m r u v }
{
    push(r, u, low16(v))
}
