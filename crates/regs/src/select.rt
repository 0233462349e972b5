// The registers that the fields of an operation code name, under an opening sequence. Field and opening stay numbers: they are bits of the code
// and the index of a decode table, by which the definitions (specs/Select.antt) choose; an enum's conversion would be the same match again.
ghost use Rattle.std.specs.Prelude.{◌≡◌};
ghost use Rattle.regs.specs.Select.{high, low, put_high, put_low, index_of, put_index, byte_of, put_byte, sp_of, put_sp, pair_of, put_pair, stacked_of, put_stacked, condition_of, a_of, f_of, put_a, with_f};

use crate::Regs;

// One half of a word by the definition's own words: `to_be_bytes` gives both halves to take one from.
pub fn high_of(w: u16) -> u8
    ensures { result ≡ high w }
{
    (w / 256) as u8
}

pub fn low_of(w: u16) -> u8
    ensures { result ≡ low w }
{
    (w % 256) as u8
}

pub fn put_high(v: u8, w: u16) -> u16
    ensures { result ≡ put_high v w }
{
    v as u16 * 256 + w % 256
}

pub fn put_low(v: u8, w: u16) -> u16
    ensures { result ≡ put_low v w }
{
    w / 256 * 256 + v as u16
}

impl Regs {
    pub fn a(self) -> u8
        ensures { result ≡ a_of self }
    {
        (self.af / 256) as u8
    }

    pub fn f(self) -> u8
        ensures { result ≡ f_of self }
    {
        (self.af % 256) as u8
    }

    pub fn put_a(self, v: u8) -> Regs
        ensures { result ≡ put_a v self }
    {
        self.with_af(put_high(v, self.af))
    }

    pub fn with_f(self, f: u8) -> Regs
        ensures { result ≡ with_f f self }
    {
        self.with_af(put_low(f, self.af))
    }

    // HL, IX or IY.
    pub fn index(self, o: u8) -> u16
        ensures { result ≡ index_of o self }
    {
        match o {
            0 => self.hl,
            1 => self.hl,
            2 => self.hl,
            3 => self.ix,
            4 => self.iy,
            5 => self.ix,
            6 => self.iy,
            7 => self.ix,
            8 => self.iy,
            _ => self.hl,
        }
    }

    pub fn put_index(self, o: u8, v: u16) -> Regs
        ensures { result ≡ put_index o v self }
    {
        match o {
            0 => self.with_hl(v),
            1 => self.with_hl(v),
            2 => self.with_hl(v),
            3 => self.with_ix(v),
            4 => self.with_iy(v),
            5 => self.with_ix(v),
            6 => self.with_iy(v),
            7 => self.with_ix(v),
            8 => self.with_iy(v),
            _ => self.with_hl(v),
        }
    }

    // B C D E H L, none, A.
    pub fn byte(self, o: u8, k: u8) -> u8
        ensures { result ≡ byte_of o k self }
    {
        match k {
            0 => high_of(self.bc),
            1 => low_of(self.bc),
            2 => high_of(self.de),
            3 => low_of(self.de),
            4 => high_of(self.index(o)),
            5 => low_of(self.index(o)),
            6 => 0,
            7 => self.a(),
            _ => 0,
        }
    }

    // The high half is made once: so the whole is short enough for the compiler to draw it into each caller.
    pub fn put_byte(self, o: u8, k: u8, v: u8) -> Regs
        ensures { result ≡ put_byte o k v self }
    {
        let h = v as u16 * 256;
        match k {
            0 => self.with_bc(h + self.bc % 256),
            1 => self.with_bc(put_low(v, self.bc)),
            2 => self.with_de(h + self.de % 256),
            3 => self.with_de(put_low(v, self.de)),
            4 => self.put_index(o, h + self.index(o) % 256),
            5 => self.put_index(o, put_low(v, self.index(o))),
            6 => self,
            7 => self.with_af(h + self.af % 256),
            _ => self,
        }
    }

    // The stack pointer of the mode.
    pub fn sp(self, user: bool) -> u16
        ensures { result ≡ sp_of user self }
    {
        if user { self.usp } else { self.ssp }
    }

    pub fn put_sp(self, user: bool, v: u16) -> Regs
        ensures { result ≡ put_sp user v self }
    {
        if user {
            self.with_usp(v)
        } else {
            self.with_ssp(v)
        }
    }

    // BC DE HL SP.
    pub fn pair(self, user: bool, o: u8, k: u8) -> u16
        ensures { result ≡ pair_of user o k self }
    {
        match k {
            0 => self.bc,
            1 => self.de,
            2 => self.index(o),
            3 => self.sp(user),
            _ => 0,
        }
    }

    pub fn put_pair(self, user: bool, o: u8, k: u8, v: u16) -> Regs
        ensures { result ≡ put_pair user o k v self }
    {
        match k {
            0 => self.with_bc(v),
            1 => self.with_de(v),
            2 => self.put_index(o, v),
            3 => self.put_sp(user, v),
            _ => self,
        }
    }

    // BC DE HL AF: what PUSH and POP name.
    pub fn stacked(self, o: u8, k: u8) -> u16
        ensures { result ≡ stacked_of o k self }
    {
        match k {
            0 => self.bc,
            1 => self.de,
            2 => self.index(o),
            3 => self.af,
            _ => 0,
        }
    }

    pub fn put_stacked(self, o: u8, k: u8, v: u16) -> Regs
        ensures { result ≡ put_stacked o k v self }
    {
        match k {
            0 => self.with_bc(v),
            1 => self.with_de(v),
            2 => self.put_index(o, v),
            3 => self.with_af(v),
            _ => self,
        }
    }

    // NZ Z NC C PO PE P M.
    pub fn condition(self, k: u8) -> bool
        ensures { result ≡ condition_of k self }
    {
        match k {
            0 => self.af / 64 % 2 == 0,
            1 => self.af / 64 % 2 == 1,
            2 => self.af % 2 == 0,
            3 => self.af % 2 == 1,
            4 => self.af / 4 % 2 == 0,
            5 => self.af / 4 % 2 == 1,
            6 => self.af / 128 % 2 == 0,
            7 => self.af / 128 % 2 == 1,
            _ => false,
        }
    }
}
