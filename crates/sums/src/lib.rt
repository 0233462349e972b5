// Sums and differences of bytes and words, and the flag register F.
// A byte operation answers its result above F, as A stands above F in AF.
#![tactic(auto, unfolding(crate::specs::Sums::add_of, crate::specs::Sums::adc_of, crate::specs::Sums::sub_of, crate::specs::Sums::sbc_of, crate::specs::Sums::cp_of, crate::specs::Sums::inc_of, crate::specs::Sums::dec_of, crate::specs::Sums::neg_of, crate::specs::Sums::add_hl_of, crate::specs::Sums::add_a_of, crate::specs::Sums::adcw_of, crate::specs::Sums::sbcw_of, crate::specs::Sums::addw_of, crate::specs::Sums::subw_of, crate::specs::Sums::cpw_of, crate::specs::Sums::negw_of))]

ghost use Rattle.std.specs.Prelude.{◌≡◌, ℕ, ◌-◌, ◌^◌, ◌+◌, ◌*◌, ◌/◌, ◌%◌, ◌<◌, ◌≤◌};
ghost use Rattle.std.proofs.Common.{rules};
ghost use Rattle.sums.specs.Width.{add_value, sub_value, extended};
ghost use Rattle.sums.specs.Flag.{bit, packed, unpacked, pair_of, word_of, add_flags, sub_flags, neg_flags};
ghost use Rattle.sums.specs.Sums.{add_of, adc_of, sub_of, sbc_of, cp_of, inc_of, dec_of, neg_of, add_hl_of, add_a_of, adcw_of, sbcw_of, addw_of, subw_of, cpw_of, negw_of};

#[derive(Clone, Copy)]
pub struct Flags {
    pub s: bool,
    pub z: bool,
    pub h: bool,
    pub v: bool,
    pub n: bool,
    pub c: bool,
}

// A value, and the flags that go with it.
#[derive(Clone, Copy)]
pub struct Flagged<T> {
    pub value: T,
    pub flags: Flags,
}

// A value, and F.
#[derive(Clone, Copy)]
pub struct WithF<T> {
    pub value: T,
    pub f: u8,
}

// A byte or a word, an unsigned number of k bits. Two are added in 32 bits, where the sum does not wrap.
pub trait Operand: Copy {
    ghost k: { ℕ };

    ghost number: { Self → ℕ };

    ghost SIZE: { ℕ };

    ghost TOP: { ℕ };

    ghost HALF: { ℕ };

    // 2 ^ k; the top bit; the bit that a half carry goes into.
    const SIZE: u32;

    const TOP: u32;

    const HALF: u32;

    fn wide(self) -> u32
        ensures { (result ≡ number self) × (result < 2 ^ k) };

    fn narrow(n: u32) -> Self
        requires { n < 2 ^ k }
        ensures { number result ≡ n };

    ghost weights: { (SIZE ≡ 2 ^ k) × (TOP ≡ 2 ^ (k - 1)) × (HALF ≡ 2 ^ (k - 4)) };

    ghost short: { (0 < k) × (2 ^ k ≤ 65536) };
}

impl Operand for u8 {
    ghost k = { 8 };

    ghost number = { λ n. n };

    ghost SIZE = { 256 };

    ghost TOP = { 128 };

    ghost HALF = { 16 };

    ghost weights = { Prim.search rules };

    ghost short = { Prim.search rules };

    const SIZE: u32 = 256;

    const TOP: u32 = 128;

    const HALF: u32 = 16;

    #[inline(always)]
    fn wide(self) -> u32 {
        u32::from(self)
    }

    #[inline(always)]
    fn narrow(n: u32) -> u8 {
        n as u8
    }
}

impl Operand for u16 {
    ghost k = { 16 };

    ghost number = { λ n. n };

    ghost SIZE = { 65536 };

    ghost TOP = { 32768 };

    ghost HALF = { 4096 };

    ghost weights = { Prim.search rules };

    ghost short = { Prim.search rules };

    const SIZE: u32 = 65536;

    const TOP: u32 = 32768;

    const HALF: u32 = 4096;

    #[inline(always)]
    fn wide(self) -> u32 {
        u32::from(self)
    }

    #[inline(always)]
    fn narrow(n: u32) -> u16 {
        n as u16
    }
}

impl Flags {
    // The flags over the old F, whose bits 5 and 3 stay.
    pub fn over(self, f: u8) -> u8
        ensures { result ≡ packed f self }
    {
        u8::from(self.s) * 128
            + u8::from(self.z) * 64
            + f / 32 % 2 * 32
            + u8::from(self.h) * 16
            + f / 8 % 2 * 8
            + u8::from(self.v) * 4
            + u8::from(self.n) * 2
            + u8::from(self.c)
    }
}

impl From<u8> for Flags {
    ghost from_gives = { λ f x. x ≡ unpacked f };

    fn from(f: u8) -> Flags {
        Flags {
            s: f / 128 % 2 == 1,
            z: f / 64 % 2 == 1,
            h: f / 16 % 2 == 1,
            v: f / 4 % 2 == 1,
            n: f / 2 % 2 == 1,
            c: f % 2 == 1,
        }
    }
}

impl<T> Flagged<T> {
    // The value beside its flags, which go over the old F.
    pub fn with_f(self, f: u8) -> WithF<T>
        ensures { result ≡ word_of f self }
    {
        WithF {
            value: self.value,
            f: self.flags.over(f),
        }
    }
}

impl Flagged<u8> {
    // The byte above its flags, which go over the old F.
    pub fn above_f(self, f: u8) -> u16
        ensures { result ≡ pair_of f self }
    {
        self.value as u16 * 256 + self.flags.over(f) as u16
    }
}

// a + b and a carry. V: the operands have one sign and the result has the other.
#[inline]
pub fn plus<T: Operand>(a: T, b: T, carry: bool) -> Flagged<T>
    ensures value { T.number result.value ≡ add_value T.k (T.number a) (T.number b) (bit carry) }
    ensures flags { result.flags ≡ add_flags T.k (T.number a) (T.number b) (bit carry) }
{
    let (x, y, c) = (a.wide(), b.wide(), u32::from(carry));
    let t = x + y + c;
    let r = t % T::SIZE;
    Flagged {
        value: T::narrow(r),
        flags: Flags {
            s: T::TOP <= r,
            z: r == 0,
            h: T::HALF <= x % T::HALF + y % T::HALF + c,
            v: ((T::TOP <= x) == (T::TOP <= y)) & ((T::TOP <= x) != (T::TOP <= r)),
            n: false,
            c: T::SIZE <= t,
        },
    }
}

// a - b and a borrow. V: the operands have different signs and the result has that of b.
#[inline]
pub fn minus<T: Operand>(a: T, b: T, carry: bool) -> Flagged<T>
    ensures value { T.number result.value ≡ sub_value T.k (T.number a) (T.number b) (bit carry) }
    ensures flags { result.flags ≡ sub_flags T.k (T.number a) (T.number b) (bit carry) }
{
    let (x, y, c) = (a.wide(), b.wide(), u32::from(carry));
    let t = x + T::SIZE - y - c;
    let r = t % T::SIZE;
    Flagged {
        value: T::narrow(r),
        flags: Flags {
            s: T::TOP <= r,
            z: r == 0,
            h: x % T::HALF < y % T::HALF + c,
            v: ((T::TOP <= r) == (T::TOP <= y)) & ((T::TOP <= r) != (T::TOP <= x)),
            n: true,
            c: t < T::SIZE,
        },
    }
}

// The operations of bytes and of words stay apart: each is one call, and the answer is AF for a byte and a word beside F for a word.
pub fn add8(a: u8, b: u8, f: u8) -> u16
    ensures { result ≡ add_of a b f }
{
    plus(a, b, false).above_f(f)
}

pub fn adc8(a: u8, b: u8, f: u8) -> u16
    ensures { result ≡ adc_of a b f }
{
    plus(a, b, Flags::from(f).c).above_f(f)
}

pub fn sub8(a: u8, b: u8, f: u8) -> u16
    ensures { result ≡ sub_of a b f }
{
    minus(a, b, false).above_f(f)
}

pub fn sbc8(a: u8, b: u8, f: u8) -> u16
    ensures { result ≡ sbc_of a b f }
{
    minus(a, b, Flags::from(f).c).above_f(f)
}

pub fn cp8(a: u8, b: u8, f: u8) -> u16
    ensures { result ≡ cp_of a b f }
{
    let mut x = minus(a, b, false);
    x.value = a;
    x.above_f(f)
}

pub fn inc8(a: u8, f: u8) -> u16
    ensures { result ≡ inc_of a f }
{
    let old = Flags::from(f);
    let mut x = plus(a, 1, false);
    x.flags.c = old.c;
    x.above_f(f)
}

pub fn dec8(a: u8, f: u8) -> u16
    ensures { result ≡ dec_of a f }
{
    let old = Flags::from(f);
    let mut x = minus(a, 1, false);
    x.flags.c = old.c;
    x.above_f(f)
}

// 0 - a, with the V that its page gives. C: the operand was not 0.
fn negated<T: Operand>(a: T, v: bool) -> Flagged<T>
    ensures value { T.number result.value ≡ sub_value T.k 0 (T.number a) 0 }
    ensures flags { result.flags ≡ neg_flags T.k v (T.number a) }
{
    let mut x = minus(T::narrow(0), a, false);
    x.flags.v = v;
    x.flags.c = a.wide() != 0;
    x
}

pub fn neg8(a: u8, f: u8) -> u16
    ensures { result ≡ neg_of a f }
{
    let v = a != 0x80;
    negated(a, v).above_f(f)
}

// ADD of a pair to HL, IX or IY.
pub fn add_hl(a: u16, b: u16, f: u8) -> WithF<u16>
    ensures { result ≡ add_hl_of a b f }
{
    let old = Flags::from(f);
    let mut x = plus(a, b, false);
    x.flags.s = old.s;
    x.flags.z = old.z;
    x.flags.v = old.v;
    x.with_f(f)
}

// ADD of the accumulator b to HL, IX or IY.
pub fn add_a(a: u16, b: u8, f: u8) -> WithF<u16>
    ensures { result ≡ add_a_of a b f }
{
    plus(a, exts8(b), false).with_f(f)
}

pub fn adc16(a: u16, b: u16, f: u8) -> WithF<u16>
    ensures { result ≡ adcw_of a b f }
{
    plus(a, b, Flags::from(f).c).with_f(f)
}

pub fn sbc16(a: u16, b: u16, f: u8) -> WithF<u16>
    ensures { result ≡ sbcw_of a b f }
{
    minus(a, b, Flags::from(f).c).with_f(f)
}

pub fn addw(a: u16, b: u16, f: u8) -> WithF<u16>
    ensures { result ≡ addw_of a b f }
{
    plus(a, b, false).with_f(f)
}

pub fn subw(a: u16, b: u16, f: u8) -> WithF<u16>
    ensures { result ≡ subw_of a b f }
{
    minus(a, b, false).with_f(f)
}

pub fn cpw(a: u16, b: u16, f: u8) -> u8
    ensures { result ≡ cpw_of a b f }
{
    minus(a, b, false).flags.over(f)
}

// NEG HL.
pub fn negw(a: u16, f: u8) -> WithF<u16>
    ensures { result ≡ negw_of a f }
{
    let v = a == 0x8000;
    negated(a, v).with_f(f)
}

// EXTS A: the answer is HL. Each of the two is one conversion of the library's, which a generic one would need a trait for.
pub fn exts8(a: u8) -> u16
    ensures { result ≡ extended 8 a }
{
    i16::from(a.cast_signed()).cast_unsigned()
}

// EXTS HL: the answer is DE above HL.
pub fn exts16(a: u16) -> u32
    ensures { result ≡ extended 16 a }
{
    i32::from(a.cast_signed()).cast_unsigned()
}
