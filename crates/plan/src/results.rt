// Where a result and its F go.
ghost use Rattle.std.specs.Prelude.{◌≡◌};
ghost use Rattle.plan.specs.Results.{into_r, into_m, into_hl};

use crate::kinds::{Done, Spot, still, storing};
use regs::Regs;
use regs::select::{high_of, low_of};
use sums::WithF;

// A byte above its F, into register k. F goes first, since k may be A.
pub fn into_r(r: Regs, o: u8, k: u8, x: u16) -> Done
    ensures { result ≡ into_r r o k x }
{
    still(r.with_f(low_of(x)).put_byte(o, k, high_of(x)))
}

// A byte above its F, to the place that its operand was read from.
pub fn into_m(r: Regs, s: Spot, x: u16) -> Done
    ensures { result ≡ into_m r s x }
{
    storing(r.with_f(low_of(x)), s, high_of(x))
}

pub fn into_hl(r: Regs, x: WithF<u16>) -> Done
    ensures { result ≡ into_hl r x }
{
    still(r.with_f(x.f).with_hl(x.value))
}
