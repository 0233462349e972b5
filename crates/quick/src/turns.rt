// Quick steps in a row, up to the first that isn't known. A step changes the registers in place, and its None holds none: so the compiler
// keeps them in the processor's own.
ghost use Rattle.std.specs.Prelude.{◌≡◌, Bool, true, false, List, ℕ, ◌-◌, ◌≤◌, length};
ghost use Rattle.board.specs.Run.{run, later};
ghost use Rattle.regs.specs.declared.Control.{Control};
ghost use Rattle.regs.specs.Select.{user_of};
ghost use Rattle.bus.specs.Leave.{state_of};
ghost use Rattle.cpu.specs.Program.{program};
ghost use Rattle.kept.specs.Kept.{Right, Inside};

use crate::kinds::Quick;
use decode::Entries;
use quick8::on_load8::act;
use quickfetch::code_at;
use regs::Regs;
use served::kinds::Given;

pub fn quick(r0: Regs, user: bool, kept: &[u32; 48], w: &mut [u8], t: &Entries, limit: u16) -> Quick
    requires inside { Inside kept.now (length w.old) }
    ensures steps_le_limit { result.steps ≤ limit }
    ensures w_value { (c : Control) (mmu : ℕ) (ds : List ℕ) → user ≡ user_of c → Right kept.now user mmu ds → run program limit (state_of r0 c mmu ds w.old) ≡ later result.steps (run program (limit - result.steps) (state_of result.regs c mmu ds w.new)) }
{
    // Field by field: as bytes, the two flags would be copied at each step (84.2 x86 instructions in place of 73.3).
    let mut r = r0.same();
    for n in 0..limit {
        let Some(c) = code_at(kept, w, t, r.pc) else {
            return Quick { regs: r, steps: n };
        };
        let Some(()) = act(Given { c, u: user, kept }, &mut r, w) else {
            return Quick { regs: r, steps: n };
        };
    }
    Quick {
        regs: r,
        steps: limit,
    }
}
