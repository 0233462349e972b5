// The stack of the mode, by data: a word goes on it, a word comes off it.
ghost use Rattle.std.specs.Prelude.{◌≡◌};
ghost use Rattle.plan.specs.Stack.{pushed, popped};

use crate::kinds::{Done, plus16, storing_word};
use crate::places::data_at;
use regs::Regs;

// SP down by two, and the word there.
pub fn push(r: Regs, u: bool, v: u16) -> Done
    ensures { result ≡ pushed r u v }
{
    let a = plus16(r.sp(u), 65534);
    storing_word(r.put_sp(u, a), data_at(0, a), v)
}

// SP up by two; the word was read already.
pub fn pop(r: Regs, u: bool) -> Regs
    ensures { result ≡ popped r u }
{
    r.put_sp(u, plus16(r.sp(u), 2))
}
