// Block moves and searches: one repetition, which is one step.
#![tactic(auto, unfolding(crate::specs::Block::counted, crate::specs::Block::moved, crate::specs::Block::searched, crate::specs::Block::staying, crate::specs::Block::cpd, crate::specs::Block::cpdr, crate::specs::Block::cpi, crate::specs::Block::cpir, crate::specs::Block::ldd, crate::specs::Block::lddr, crate::specs::Block::ldi, crate::specs::Block::ldir))]

ghost use Rattle.std.specs.Prelude.{◌≡◌};
ghost use Rattle.block.specs.Block.{left, more, compared, counted, moved, searched, staying, seeking, cpd, cpdr, cpi, cpir, ldd, lddr, ldi, ldir};

use plan::kinds::{Done, Ins, low8, plus16, still, storing};
use plan::places::data_at;
use regs::Regs;
use sums::Flags;

const UP: u16 = 1;

const DOWN: u16 = 65535;

// What BC comes to.
fn left_of(r: Regs) -> u16
    ensures { result ≡ left r }
{
    plus16(r.bc, DOWN)
}

fn has_more(r: Regs) -> bool
    ensures { result ≡ more r }
{
    left_of(r) != 0
}

fn compare(r: Regs, v: u32) -> Flags
    ensures { result ≡ compared r v }
{
    sums::minus(r.a(), low8(v), false).flags
}

// The registers after a repetition, with the flags x.
fn count(r: Regs, x: Flags, de: u16, hl: u16) -> Regs
    ensures { result ≡ counted r x de hl }
{
    let t = r.with_f(x.over(r.f()));
    t.with_block(left_of(r), de, hl)
}

fn move_one(k: u16, r: Regs, v: u32) -> Done
    ensures { result ≡ moved k r v }
{
    let old = Flags::from(r.f());
    let x = Flags {
        s: old.s,
        z: old.z,
        h: false,
        v: has_more(r),
        n: false,
        c: old.c,
    };
    storing(
        count(r, x, plus16(r.de, k), plus16(r.hl, k)),
        data_at(0, r.de),
        low8(v),
    )
}

fn search_one(k: u16, r: Regs, v: u32) -> Done
    ensures { result ≡ searched k r v }
{
    let old = Flags::from(r.f());
    let by = compare(r, v);
    let x = Flags {
        s: by.s,
        z: by.z,
        h: by.h,
        v: has_more(r),
        n: true,
        c: old.c,
    };
    still(count(r, x, r.de, plus16(r.hl, k)))
}

fn is_seeking(r: Regs, v: u32) -> bool
    ensures { result ≡ seeking r v }
{
    let by = compare(r, v);
    has_more(r) & !by.z
}

// The registers with PC back on the instruction where it is to go on.
fn stay(again: bool, r: Regs, i: Ins) -> Regs
    ensures { result ≡ staying again r i }
{
    if again {
        return r.with_pc(i.start);
    }
    r
}

// One function for each of the manual's pages, of which each is one call: the steps that two of them share are above.
pub fn cpd(r: Regs, v: u32) -> Done
    ensures { result ≡ cpd r v }
{
    search_one(DOWN, r, v)
}

pub fn cpdr(r: Regs, i: Ins, v: u32) -> Done
    ensures { result ≡ cpdr r i v }
{
    search_one(DOWN, stay(is_seeking(r, v), r, i), v)
}

pub fn cpi(r: Regs, v: u32) -> Done
    ensures { result ≡ cpi r v }
{
    search_one(UP, r, v)
}

pub fn cpir(r: Regs, i: Ins, v: u32) -> Done
    ensures { result ≡ cpir r i v }
{
    search_one(UP, stay(is_seeking(r, v), r, i), v)
}

pub fn ldd(r: Regs, v: u32) -> Done
    ensures { result ≡ ldd r v }
{
    move_one(DOWN, r, v)
}

pub fn lddr(r: Regs, i: Ins, v: u32) -> Done
    ensures { result ≡ lddr r i v }
{
    move_one(DOWN, stay(has_more(r), r, i), v)
}

pub fn ldi(r: Regs, v: u32) -> Done
    ensures { result ≡ ldi r v }
{
    move_one(UP, r, v)
}

pub fn ldir(r: Regs, i: Ins, v: u32) -> Done
    ensures { result ≡ ldir r i v }
{
    move_one(UP, stay(has_more(r), r, i), v)
}
