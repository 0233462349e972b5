// Stage 1 up to the operation code: one access to a function.
ghost use Rattle.std.specs.Prelude.{◌≡◌};
ghost use Rattle.cpu.specs.Lead.{lead_fourth, lead_third, lead_second, lead_first, lead_of};

use crate::kinds::Lead;
use board::Fault;
use bus::read::{next_of, read_byte};
use decode::Entries;
use mmu::Mode;

// After DD CB d or FD CB d.
#[tactic(auto, unfolding(crate::specs::Lead::lead_fourth, crate::specs::Lead::lead_by))]
fn lead_fourth(mode: Mode, ds: &[u16; 32], w: &[u8], a: u16, o: u8, d: u8) -> Result<Lead, Fault>
    ensures { result ≡ lead_fourth mode.user mode.control ds.now w.now a o d }
{
    let b = read_byte(mode, ds, w, true, a)?;
    Ok(Lead {
        opening: o,
        code: (b % 256) as u8,
        displacement: d,
        at: next_of(a),
    })
}

// After two opening bytes: DD ED and FD ED have their operation code next.
#[tactic(auto, unfolding(crate::specs::Lead::lead_third, crate::specs::Lead::lead_by))]
fn lead_third(mode: Mode, ds: &[u16; 32], w: &[u8], a: u16, o: u8) -> Result<Lead, Fault>
    ensures { result ≡ lead_third mode.user mode.control ds.now w.now a o }
{
    let b = read_byte(mode, ds, w, true, a)?;
    let at = next_of(a);
    let before = o < 7;
    if before {
        return lead_fourth(mode, ds, w, at, o, (b % 256) as u8);
    }
    Ok(Lead {
        opening: o,
        code: (b % 256) as u8,
        displacement: 0,
        at,
    })
}

#[tactic(auto, unfolding(crate::specs::Lead::lead_second))]
fn lead_second(mode: Mode, ds: &[u16; 32], w: &[u8], a: u16, o: u8, b: u8) -> Result<Lead, Fault>
    ensures { result ≡ lead_second mode.user mode.control ds.now w.now a o b }
{
    let n = decode::after_opening(o, b);
    let plain = n == 0;
    if plain {
        return Ok(Lead {
            opening: o,
            code: b,
            displacement: 0,
            at: a,
        });
    }
    lead_third(mode, ds, w, a, n)
}

#[tactic(auto, unfolding(crate::specs::Lead::lead_first, crate::specs::Lead::lead_by))]
fn lead_opened(mode: Mode, ds: &[u16; 32], w: &[u8], a: u16, b: u8) -> Result<Lead, Fault>
    ensures { result ≡ lead_first mode.user mode.control ds.now w.now a b }
{
    let o = decode::opening_of(b);
    let plain = o == 0;
    if plain {
        return Ok(Lead {
            opening: 0,
            code: b,
            displacement: 0,
            at: a,
        });
    }
    let k = read_byte(mode, ds, w, true, a)?;
    lead_second(mode, ds, w, next_of(a), o, (k % 256) as u8)
}

// A byte whose entry is an operation from 24 on opens nothing: the usual case, by one test.
fn lead_first(
    mode: Mode,
    ds: &[u16; 32],
    w: &[u8],
    t: &Entries,
    a: u16,
    b: u8,
) -> Result<Lead, Fault>
    ensures { result ≡ lead_first mode.user mode.control ds.now w.now a b }
{
    let e = t.entry(0, b);
    let opens = e < 12288;
    if opens {
        return lead_opened(mode, ds, w, a, b);
    }
    Ok(Lead {
        opening: 0,
        code: b,
        displacement: 0,
        at: a,
    })
}

#[tactic(auto, unfolding(crate::specs::Lead::lead_of, crate::specs::Lead::lead_by))]
pub fn lead_of(mode: Mode, ds: &[u16; 32], w: &[u8], t: &Entries, pc: u16) -> Result<Lead, Fault>
    ensures { result ≡ lead_of mode.user mode.control ds.now w.now pc }
{
    let b = read_byte(mode, ds, w, true, pc)?;
    lead_first(mode, ds, w, t, next_of(pc), (b % 256) as u8)
}
