// The control registers: what may be set in them, and the mode.
ghost use Rattle.std.specs.Prelude.{◌≡◌};
ghost use Rattle.regs.specs.Change.{load_msr, load_tcr, load_iopage, load_limit, load_vector};
ghost use Rattle.regs.specs.Select.{user_of};

use crate::Control;

impl Control {
    // User mode.
    pub fn user(self) -> bool
        ensures { result ≡ user_of self }
    {
        self.msr / 0x4000 % 2 == 1
    }

    pub fn load_msr(self, v: u16) -> Control
        ensures { result ≡ load_msr v self }
    {
        Control {
            msr: v & 0x537F,
            ..self
        }
    }

    pub fn load_tcr(self, v: u16) -> Control
        ensures { result ≡ load_tcr v self }
    {
        Control {
            tcr: (v % 8) as u8,
            ..self
        }
    }

    pub fn load_iopage(self, v: u16) -> Control
        ensures { result ≡ load_iopage v self }
    {
        Control {
            iopage: (v % 256) as u8,
            ..self
        }
    }

    pub fn load_limit(self, v: u16) -> Control
        ensures { result ≡ load_limit v self }
    {
        Control {
            limit: v / 16 * 16,
            ..self
        }
    }

    pub fn load_vector(self, v: u16) -> Control
        ensures { result ≡ load_vector v self }
    {
        Control {
            vector: v / 16 * 16,
            ..self
        }
    }
}
