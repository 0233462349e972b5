// Products of bytes and words, and the address that a signed displacement reaches.
#![tactic(auto, unfolding(crate::specs::Products::displaced, crate::specs::Products::mult_of, crate::specs::Products::multu_of))]

ghost use Rattle.std.specs.Prelude.{◌≡◌, ℕ, ◌+◌, ◌-◌, ◌^◌, ◌<◌, ◌≤◌, unsigned_abs, pos};
ghost use Rattle.sums.specs.Width.{signed, wrap};
ghost use Rattle.sums.specs.Flag.{packed, unpacked};
ghost use Rattle.products.specs.Products.{displaced, product_flags, mult_of, multu_of};

use sums::{Flags, Operand, WithF};

// A byte, whose products are words, or a word, whose products are double words.
pub trait Factor: Operand {
    type Product;

    ghost whole: { Self.Product → ℕ };

    fn signed(self) -> i64
        ensures value { result ≡ signed Self.k (Self.number self) }
        ensures size { unsigned_abs result ≤ 32768 };

    // p modulo 2 ^ (k + k).
    fn product(p: i64) -> Self::Product
        ensures { whole result ≡ wrap (Self.k + Self.k) p };
}

impl Factor for u8 {
    type Product = u16;

    ghost whole = { λ n. n };

    #[inline(always)]
    fn signed(self) -> i64 {
        i64::from(self.cast_signed())
    }

    #[inline(always)]
    fn product(p: i64) -> u16 {
        p.rem_euclid(65536) as u16
    }
}

impl Factor for u16 {
    type Product = u32;

    ghost whole = { λ n. n };

    #[inline(always)]
    fn signed(self) -> i64 {
        i64::from(self.cast_signed())
    }

    #[inline(always)]
    fn product(p: i64) -> u32 {
        p.rem_euclid(4294967296) as u32
    }
}

// F after a product: V clear, H and N stay.
fn product_f(s: bool, z: bool, c: bool, f: u8) -> u8
    ensures { result ≡ packed f (product_flags s z c (unpacked f)) }
{
    let old = Flags::from(f);
    let flags = Flags {
        s,
        z,
        h: old.h,
        v: false,
        n: old.n,
        c,
    };
    flags.over(f)
}

// MULT and MULTW. C: the product does not fit in k bits.
pub fn mult<T: Factor>(a: T, b: T, f: u8) -> WithF<T::Product>
    ensures { record { value = T.whole result.value; f = result.f } ≡ mult_of T.k (T.number a) (T.number b) f }
{
    let p = a.signed() * b.signed();
    let top = i64::from(T::TOP);
    WithF {
        value: T::product(p),
        f: product_f(p < 0, p == 0, (p < -top) | (top <= p), f),
    }
}

// MULTU and MULTUW. C: the product does not fit in k bits.
pub fn multu<T: Factor>(a: T, b: T, f: u8) -> WithF<T::Product>
    ensures { record { value = T.whole result.value; f = result.f } ≡ multu_of T.k (T.number a) (T.number b) f }
{
    let p = a.wide() * b.wide();
    WithF {
        value: T::product(i64::from(p)),
        f: product_f(false, p == 0, T::SIZE <= p, f),
    }
}

// A 16 bit address and a signed displacement of 8 bits.
pub fn displace(x: u16, d: u8) -> u16
    ensures { result ≡ displaced x d }
{
    x.wrapping_add_signed(i16::from(d.cast_signed()))
}
