// Logic, rotates, shifts and single bits of a byte, and the eight operations on the accumulator by their code.
#![tactic(auto, unfolding(crate::specs::Logic::and_of, crate::specs::Logic::or_of, crate::specs::Logic::xor_of, crate::specs::Logic::alu_of, crate::specs::Logic::cpl_of, crate::specs::Logic::scf_of, crate::specs::Logic::ccf_of, crate::specs::Shift::turn_of, crate::specs::Shift::rotate_of, crate::specs::Shift::rotate_a_of, crate::specs::Shift::bit_test_of, crate::specs::Shift::res_of, crate::specs::Shift::set_of))]

ghost use Rattle.std.specs.Prelude.{◌≡◌, true, false, ◌+◌, ◌*◌, ◌/◌, ◌%◌, ◌^◌, ◌≤◌};
ghost use Rattle.logic.specs.Logic.{even, result_flags, and_of, or_of, xor_of, alu_of, cpl_of, scf_of, ccf_of};
ghost use Rattle.logic.specs.Shift.{left_with, right_with, tset, turn_of, rotate_of, rotate_a_of, bit_test_of, res_of, set_of};

use sums::{Flagged, Flags};

pub fn parity(a: u8) -> bool
    ensures { result ≡ even a }
{
    u8::count_ones(a) % 2 == 0
}

// A result with its S, Z and parity, N clear, H and C as given.
fn with_result(r: u8, h: bool, c: bool) -> Flagged<u8>
    ensures { result ≡ record { value = r; flags = result_flags h c r } }
{
    Flagged {
        value: r,
        flags: Flags {
            s: 128 <= r,
            z: r == 0,
            h,
            v: parity(r),
            n: false,
            c,
        },
    }
}

pub fn and8(a: u8, b: u8, f: u8) -> u16
    ensures { result ≡ and_of a b f }
{
    with_result(a & b, true, false).above_f(f)
}

pub fn or8(a: u8, b: u8, f: u8) -> u16
    ensures { result ≡ or_of a b f }
{
    with_result(a | b, false, false).above_f(f)
}

pub fn xor8(a: u8, b: u8, f: u8) -> u16
    ensures { result ≡ xor_of a b f }
{
    with_result(a ^ b, false, false).above_f(f)
}

// The eight operations on the accumulator, by bits 5 to 3 of the operation code. They stay a number: making an enum of it would be
// this match once more.
pub fn alu(k: u8, a: u8, b: u8, f: u8) -> u16
    ensures { result ≡ alu_of k a b f }
{
    match k {
        0 => sums::add8(a, b, f),
        1 => sums::adc8(a, b, f),
        2 => sums::sub8(a, b, f),
        3 => sums::sbc8(a, b, f),
        4 => and8(a, b, f),
        5 => xor8(a, b, f),
        6 => or8(a, b, f),
        _ => sums::cp8(a, b, f),
    }
}

pub fn cpl(a: u8, f: u8) -> u16
    ensures { result ≡ cpl_of a f }
{
    let mut x = Flags::from(f);
    x.h = true;
    x.n = true;
    Flagged {
        value: 255 - a,
        flags: x,
    }
    .above_f(f)
}

pub fn scf(f: u8) -> u8
    ensures { result ≡ scf_of f }
{
    let mut x = Flags::from(f);
    x.h = false;
    x.n = false;
    x.c = true;
    x.over(f)
}

pub fn ccf(f: u8) -> u8
    ensures { result ≡ ccf_of f }
{
    let mut x = Flags::from(f);
    let c = x.c;
    x.h = c;
    x.n = false;
    x.c = !c;
    x.over(f)
}

// One place to the left, with i coming in at bit 0.
fn left(a: u8, i: u8) -> Flagged<u8>
    requires { i ≤ 1 }
    ensures { result ≡ left_with i a }
{
    with_result(a % 128 * 2 + i, false, a / 128 == 1)
}

// One place to the right, with i coming in at bit 7.
fn right(a: u8, i: u8) -> Flagged<u8>
    requires { i ≤ 1 }
    ensures { result ≡ right_with i a }
{
    with_result(i * 128 + a / 2, false, a % 2 == 1)
}

fn test_and_set(a: u8, old: Flags) -> Flagged<u8>
    ensures { result ≡ tset a old }
{
    let mut x = old;
    let s = 128 <= a;
    x.s = s;
    Flagged {
        value: 255,
        flags: x,
    }
}

// The rotates and shifts and TSET, by a number as in alu.
fn turn(k: u8, a: u8, old: Flags) -> Flagged<u8>
    ensures { result ≡ turn_of k a old }
{
    let c = u8::from(old.c);
    match k {
        0 => left(a, a / 128),
        1 => right(a, a % 2),
        2 => left(a, c),
        3 => right(a, c),
        4 => left(a, 0),
        5 => right(a, a / 128),
        6 => test_and_set(a, old),
        _ => right(a, 0),
    }
}

// The rotates and shifts of an operand and TSET, by bits 5 to 3 of the operation code.
pub fn rotate(k: u8, a: u8, f: u8) -> u16
    ensures { result ≡ rotate_of k a f }
{
    turn(k, a, Flags::from(f)).above_f(f)
}

// RLCA, RRCA, RLA and RRA, by bits 5 to 3 of the operation code.
pub fn rotate_a(k: u8, a: u8, f: u8) -> u16
    ensures { result ≡ rotate_a_of k a f }
{
    let old = Flags::from(f);
    let mut x = turn(k, a, old);
    x.flags.s = old.s;
    x.flags.z = old.z;
    x.flags.v = old.v;
    x.above_f(f)
}

// BIT: the bit n % 8.
pub fn bit_test(n: u8, a: u8, f: u8) -> u8
    ensures { result ≡ bit_test_of n a f }
{
    let z = (a >> (n % 8)) % 2 == 0;
    let mut x = Flags::from(f);
    x.z = z;
    x.h = true;
    x.n = false;
    x.over(f)
}

// RES: the bit n % 8.
pub fn res(n: u8, a: u8) -> u8
    ensures { result ≡ res_of n a }
{
    a & !(1 << (n % 8))
}

// SET: the bit n % 8.
pub fn set(n: u8, a: u8) -> u8
    ensures { result ≡ set_of n a }
{
    a | 1 << (n % 8)
}
