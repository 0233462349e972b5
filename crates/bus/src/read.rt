// Reads: each byte translated by itself, memory's size tested afterwards.
ghost use Rattle.std.specs.Prelude.{◌≡◌};
ghost use Rattle.bus.specs.Access.{next, read_from, got_many, joined, count};

use board::Fault;
use mmu::Mode;

pub fn next_of(a: u16) -> u16
    ensures { result ≡ next a }
{
    a.wrapping_add(1)
}

#[tactic(auto, unfolding(crate::specs::Access::read_from, crate::specs::Board::load_at, board::specs::Program::through, board::specs::Program::from_memory))]
#[inline(always)]
pub fn read_byte(mode: Mode, ds: &[u16; 32], w: &[u8], program: bool, a: u16) -> Result<u64, Fault>
    ensures { result ≡ read_from mode.user mode.control ds.now w.now program a }
{
    let p = mode.translate(ds, program, false, a)?;
    match w.get(p as usize) {
        Some(b) => Ok(u64::from(*b)),
        None => Err(Fault::Lacks(p)),
    }
}

// b below the number of the bytes that follow it.
#[tactic(auto, unfolding(crate::specs::Access::joined))]
pub fn join(b: u64, v: u64) -> u64
    ensures { result ≡ joined b v }
{
    b % 256 + v % 16777216 * 256
}

// n bytes at following addresses as one number, low byte first: no more than four. Each count by itself, and drawn in where it is called: an
// instruction has none or one as a rule, and a call for it would cost more than its bytes.
#[tactic(auto, unfolding(crate::specs::Access::count, crate::specs::Access::got_many, crate::specs::Access::and_then))]
#[inline(always)]
pub fn read_number(
    mode: Mode,
    ds: &[u16; 32],
    w: &[u8],
    program: bool,
    a: u16,
    n: u8,
) -> Result<u64, Fault>
    ensures { result ≡ got_many (count n) mode.user mode.control ds.now w.now program a }
{
    if n == 0 {
        return Ok(0);
    }
    let b = read_byte(mode, ds, w, program, a)?;
    if n == 1 {
        return Ok(join(b, 0));
    }
    let second = next_of(a);
    let c = read_byte(mode, ds, w, program, second)?;
    if n == 2 {
        return Ok(join(b, join(c, 0)));
    }
    let third = next_of(second);
    let d = read_byte(mode, ds, w, program, third)?;
    if n == 3 {
        return Ok(join(b, join(c, join(d, 0))));
    }
    let e = read_byte(mode, ds, w, program, next_of(third))?;
    Ok(join(b, join(c, join(d, join(e, 0)))))
}
