// The registers with one of them changed.
ghost use Rattle.std.specs.Prelude.{◌≡◌};
ghost use Rattle.regs.specs.Change.{with_af, with_bc, with_de, with_hl, with_ix, with_iy, with_pc, with_ssp, with_usp, with_block, exchange_af, exchange_x};

use crate::Regs;

impl Regs {
    // The same registers, field by field. A record that is copied whole is copied in eights of bytes, and each field is then packed and unpacked.
    pub fn same(self) -> Regs
        ensures { result ≡ self }
    {
        Regs {
            af: self.af,
            bc: self.bc,
            de: self.de,
            hl: self.hl,
            af2: self.af2,
            bc2: self.bc2,
            de2: self.de2,
            hl2: self.hl2,
            ix: self.ix,
            iy: self.iy,
            pc: self.pc,
            ssp: self.ssp,
            usp: self.usp,
            bankaf: self.bankaf,
            bankx: self.bankx,
        }
    }

    pub fn with_af(self, v: u16) -> Regs
        ensures { result ≡ with_af v self }
    {
        Regs { af: v, ..self }
    }

    pub fn with_bc(self, v: u16) -> Regs
        ensures { result ≡ with_bc v self }
    {
        Regs { bc: v, ..self }
    }

    pub fn with_de(self, v: u16) -> Regs
        ensures { result ≡ with_de v self }
    {
        Regs { de: v, ..self }
    }

    pub fn with_hl(self, v: u16) -> Regs
        ensures { result ≡ with_hl v self }
    {
        Regs { hl: v, ..self }
    }

    pub fn with_ix(self, v: u16) -> Regs
        ensures { result ≡ with_ix v self }
    {
        Regs { ix: v, ..self }
    }

    pub fn with_iy(self, v: u16) -> Regs
        ensures { result ≡ with_iy v self }
    {
        Regs { iy: v, ..self }
    }

    pub fn with_pc(self, v: u16) -> Regs
        ensures { result ≡ with_pc v self }
    {
        Regs { pc: v, ..self }
    }

    pub fn with_ssp(self, v: u16) -> Regs
        ensures { result ≡ with_ssp v self }
    {
        Regs { ssp: v, ..self }
    }

    pub fn with_usp(self, v: u16) -> Regs
        ensures { result ≡ with_usp v self }
    {
        Regs { usp: v, ..self }
    }

    // What a block instruction steps.
    pub fn with_block(self, bc: u16, de: u16, hl: u16) -> Regs
        ensures { result ≡ with_block bc de hl self }
    {
        Regs { bc, de, hl, ..self }
    }

    // EX AF,AF'.
    pub fn exchange_af(self) -> Regs
        ensures { result ≡ exchange_af self }
    {
        Regs {
            af: self.af2,
            af2: self.af,
            bankaf: !self.bankaf,
            ..self
        }
    }

    // EXX.
    pub fn exchange_x(self) -> Regs
        ensures { result ≡ exchange_x self }
    {
        Regs {
            bc: self.bc2,
            de: self.de2,
            hl: self.hl2,
            bc2: self.bc,
            de2: self.de,
            hl2: self.hl,
            bankx: !self.bankx,
            ..self
        }
    }
}
