// Packing: the fields of any table of widths into bytes, most significant bit first, and back.
#![tactic(auto)]

ghost use Rattle.std.specs.Prelude.{◌≡◌, ◌++◌, ◌+◌, ◌/◌, ◌%◌, ◌^◌, ◌≤◌, ◌<◌, length, get_or, set, drop};
ghost use Rattle.pack.specs.Pack.{size, Table, Fit, pack, unpack, pasted};
ghost use Rattle.pack.specs.Field.{bit_of, with_bit, Place, Put, Got};

// Bit p of the bytes.
fn get_bit(s: &[u8], p: usize) -> u16
    requires { p / 8 < length s.now }
    ensures { result ≡ bit_of (get_or s.now (p / 8) 0) (p % 8) }
{
    ((s[p / 8] as u16) >> (7 - p % 8)) % 2
}

// A byte with b as its bit r; the bits after it become 0.
fn with_bit(x: u8, r: usize, b: u16) -> u8
    requires { (r < 8) × (b < 2) }
    ensures { result ≡ with_bit x r b }
{
    ((((x as u16) >> (8 - r)) * 2 + b) << (7 - r)) as u8
}

// Bit p becomes b; the bits after it in its byte become 0.
fn put_bit(out: &mut [u8], p: usize, b: u16)
    requires { (p / 8 < length out.old) × (b < 2) }
    ensures { out.new ≡ set out.old (p / 8) (with_bit (get_or out.old (p / 8) 0) (p % 8) b) }
{
    let at = p / 8;
    out[at] = with_bit(out[at], p % 8, b);
}

// The w bits from p on spell v; the bits after them in their last byte become 0.
fn put_field(out: &mut [u8], p: usize, w: usize, v: u16)
    requires { Place out.old p w × (v < 2 ^ w) }
    ensures { Put out.old p w v out.new }
{
    for j in 0..w {
        put_bit(out, p + j, (v >> (w - 1 - j)) % 2);
    }
}

// The number that the w bits from p on spell.
fn get_field(s: &[u8], p: usize, w: usize) -> u16
    requires { Place s.now p w }
    ensures { Got s.now p w result }
{
    let mut v = 0;
    for k in 0..w {
        v = v * 2 + get_bit(s, p + k);
    }
    v
}

// The values vs, in fields of the widths ws, into the first bytes of out; the bytes past the fields stay.
pub fn put_all(out: &mut [u8], ws: &[u8], vs: &[u16])
    requires { Table ws.now × Fit ws.now vs.now × (size ws.now ≤ length out.old) }
    ensures { out.new ≡ pack ws.now vs.now ++ drop (size ws.now) out.old }
{
    let mut p = 0;
    for (i, &w) in ws.iter().enumerate() {
        let w = w as usize;
        put_field(out, p, w, vs[i]);
        p += w;
    }
}

// The values of the fields of the widths ws that the bytes s spell, into vs.
pub fn get_all(s: &[u8], ws: &[u8], vs: &mut [u16])
    requires { Table ws.now × (length s.now ≡ size ws.now) × (length vs.old ≡ length ws.now) }
    ensures { vs.new ≡ unpack ws.now s.now }
{
    let mut p = 0;
    for (i, &w) in ws.iter().enumerate() {
        let w = w as usize;
        vs[i] = get_field(s, p, w);
        p += w;
    }
}

// The list dst from index k on becomes src; the rest of it stays. One call of the library, with a promise over the whole list for its callers.
pub fn copy_into<T: Copy>(dst: &mut [T], k: usize, src: &[T])
    requires { k + length src.now ≤ length dst.old }
    ensures { dst.new ≡ pasted dst.old k src.now }
{
    dst[k..k + src.len()].copy_from_slice(src);
}

// The bytes s over those of out from index `at` on; the rest of it stays. Answers the index past them.
pub fn put_bytes(out: &mut [u8], at: usize, s: &[u8]) -> usize
    requires { at + length s.now ≤ length out.old }
    ensures { (result ≡ at + length s.now) × (out.new ≡ pasted out.old at s.now) }
{
    copy_into(out, at, s);
    at + s.len()
}
