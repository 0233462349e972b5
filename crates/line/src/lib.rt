// What the printing program shows, and its line.
#![tactic(auto)]

pub mod buffer;

ghost use Rattle.std.specs.Prelude.{◌≡◌, ◌+◌, ◌%◌, ◌≤◌, length, decimal};
ghost use Rattle.pack.specs.Pack.{pasted};
ghost use Rattle.line.specs.Line.{glyph as digit_glyph, four_hex, Spells, refused_line, ended_line, shows, line_of};

use crate::buffer::Line;
use itoa::Buffer;
use legal::refusal::Refusal;

// How a run ended.
#[derive(Clone, Copy)]
pub struct End {
    // The event's number.
    pub event: u16,
    // The steps that completed.
    pub steps: u16,
    pub pc: u16,
}

// What is shown: a refusal's number, or the event's number, the steps that completed, PC.
#[derive(Clone, Copy)]
pub enum Shown {
    Refused(u8),
    Ended(u16, u16, u16),
}

impl From<Result<End, Refusal>> for Shown {
    ghost from_gives = { λ r s. s ≡ shows r };

    fn from(r: Result<End, Refusal>) -> Shown {
        match r {
            Ok(e) => Shown::Ended(e.event, e.steps, e.pc),
            Err(k) => Shown::Refused(k.number()),
        }
    }
}

fn glyph(d: u16) -> u8
    ensures { result ≡ digit_glyph (d % 16) }
{
    let k = (d % 16) as u8;
    if k < 10 { 48 + k } else { 55 + k }
}

// No library writes a hexadecimal number but to what allocates.
fn four_hex(v: u16) -> [u8; 4]
    ensures { result ≡ four_hex v }
{
    let a = glyph(v / 4096);
    let b = glyph(v / 256);
    let c = glyph(v / 16);
    let d = glyph(v);
    [a, b, c, d]
}

fn put_decimal(l: &mut Line, v: u16)
    requires { l.old.n + 5 ≤ 32 }
    ensures n { l.new.n ≡ l.old.n + length (decimal v) }
    ensures text { l.new.text ≡ pasted l.old.text l.old.n (decimal v) }
    ensures upper_bound { l.new.n ≤ l.old.n + 5 }
{
    let mut buffer = Buffer::new();
    l.put(buffer.format(v).as_bytes());
}

pub fn refused_line(k: u8) -> Line
    ensures { Spells result (refused_line k) }
{
    let mut l = Line::new();
    l.put(b"refused ");
    put_decimal(&mut l, u16::from(k));
    l.put(b"\n");
    l
}

pub fn ended_line(e: End) -> Line
    ensures { Spells result (ended_line e.event e.steps e.pc) }
{
    let mut l = Line::new();
    l.put(b"stop ");
    put_decimal(&mut l, e.event);
    l.put(b" steps ");
    put_decimal(&mut l, e.steps);
    l.put(b" pc ");
    l.put(&four_hex(e.pc));
    l.put(b"\n");
    l
}

// Any number, not only those of document 01.
pub fn line_for(s: Shown) -> Line
    ensures { Spells result (line_of s) }
{
    match s {
        Shown::Refused(k) => refused_line(k),
        Shown::Ended(event, steps, pc) => ended_line(End { event, steps, pc }),
    }
}
