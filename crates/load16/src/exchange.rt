// EX and EXX on words.
ghost use Rattle.std.specs.Prelude.{◌≡◌};
ghost use Rattle.load16.specs.Exchange.{ex_de_hl, ex_xy_hl, ex_sp, ex_af, exx_of};

use plan::kinds::{Done, Ins, Spot, low16, still, storing_word};
use regs::Regs;

pub fn ex_de_hl(r: Regs) -> Done
    ensures { result ≡ ex_de_hl r }
{
    still(r.with_block(r.bc, r.hl, r.de))
}

pub fn ex_xy_hl(r: Regs, i: Ins) -> Done
    ensures { result ≡ ex_xy_hl r i }
{
    let x = r.with_hl(r.index(i.opening));
    still(x.put_index(i.opening, r.hl))
}

pub fn ex_sp(r: Regs, i: Ins, s: Spot, v: u32) -> Done
    ensures { result ≡ ex_sp r i s v }
{
    let x = r.put_index(i.opening, low16(v));
    storing_word(x, s, r.index(i.opening))
}

pub fn ex_af(r: Regs) -> Done
    ensures { result ≡ ex_af r }
{
    still(r.exchange_af())
}

pub fn exx(r: Regs) -> Done
    ensures { result ≡ exx_of r }
{
    still(r.exchange_x())
}
