// A quick step by its entry and its instruction's function.
ghost use Rattle.std.specs.Prelude.{◌≡◌, IsTrue, IfSome};
ghost use Rattle.decode.specs.Entry.{op_in};
ghost use Rattle.served.specs.Served.{Begins, Fetched, Served, Works, is_quick};

use crate::kinds::{Begun, Given};
use crate::parts::{ins, operand, store};
use plan::kinds::{Done, Ins, Spot};
use plan::places::spot_of;
use regs::Regs;

// The instruction of the entry e with its operand; none where the code's entry is another, or the operand's page isn't kept.
// Drawn in at each entry, so that what the entry says is known.
#[inline(always)]
fn begin(e: u16, g: Given, r: Regs, w: &[u8]) -> Option<Begun>
    requires fetched { Fetched g.kept.now w.now g.c }
    requires quick { IsTrue (is_quick e) }
    ensures begins { IfSome result (λ b. Begins g.entry.kept.now g.entry.u r g.entry.c w.now b) }
    ensures op { IfSome result (λ b. b.i.op ≡ op_in e) }
{
    if g.c.e != e {
        return None;
    }
    let i = ins(e, r, g.c, g.kept, w);
    let s = spot_of(g.u, r, i);
    let v = operand(s, g.kept, w)?;
    Some(Begun { i, s, v })
}

// f has the registers behind the instruction, the instruction, its operand's place, and what was read there.
#[inline(always)]
fn end<F: FnOnce(Regs, Ins, Spot, u32) -> Done>(
    b: Begun,
    g: Given,
    r: &mut Regs,
    w: &mut [u8],
    f: F,
) -> Option<()>
    requires fetched { Fetched g.kept.now w.old g.c }
    requires begins { Begins g.kept.now g.u r.old g.c w.old b }
    requires callable { F.IsAlwaysCallable f }
    requires works { Works b.i.op g.u (F.post f) }
    ensures { Served g.entry.kept.now g.entry.u r.old r.new g.entry.c w.old w.new result }
{
    let d = f(r.with_pc(b.i.next), b.i, b.s, b.v);
    store(d.write, g.kept, w)?;
    *r = d.regs;
    Some(())
}

// The step of the code c where its entry is e; none where it is another, or a page isn't kept: then nothing has changed.
pub fn step<F: FnOnce(Regs, Ins, Spot, u32) -> Done>(
    e: u16,
    g: Given,
    r: &mut Regs,
    w: &mut [u8],
    f: F,
) -> Option<()>
    requires fetched { Fetched g.kept.now w.old g.c }
    requires quick { IsTrue (is_quick e) }
    requires callable { F.IsAlwaysCallable f }
    requires works { Works (op_in e) g.u (F.post f) }
    ensures { Served g.entry.kept.now g.entry.u r.old r.new g.entry.c w.old w.new result }
{
    let b = begin(e, g, *r, w)?;
    end(b, g, r, w, f)
}

// The same where the operand may lie in two ways, with the entry d or e.
pub fn either<F: FnOnce(Regs, Ins, Spot, u32) -> Done>(
    d: u16,
    e: u16,
    g: Given,
    r: &mut Regs,
    w: &mut [u8],
    f: F,
) -> Option<()>
    requires fetched { Fetched g.kept.now w.old g.c }
    requires quick_d { IsTrue (is_quick d) }
    requires quick_e { IsTrue (is_quick e) }
    requires same { op_in d ≡ op_in e }
    requires callable { F.IsAlwaysCallable f }
    requires works { Works (op_in e) g.u (F.post f) }
    ensures { Served g.entry.kept.now g.entry.u r.old r.new g.entry.c w.old w.new result }
{
    let b = if g.c.e == d {
        begin(d, g, *r, w)?
    } else {
        begin(e, g, *r, w)?
    };
    end(b, g, r, w, f)
}
