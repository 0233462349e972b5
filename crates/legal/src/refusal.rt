// Why a call did nothing: document 01's ten refusals.
ghost use Rattle.std.specs.Prelude.{◌≡◌};
ghost use Rattle.legal.specs.Refusal.{number_of, refused_by};

use regs::Machine;

#[derive(Clone, Copy, PartialEq, Eq, Debug)]
pub enum Refusal {
    // Memory isn't the whole frames that it has to be, or a frame count isn't 1 to 16.
    MemoryLength = 1,
    // A bit that may not be set is set.
    ReservedBit = 2,
    // A stored form isn't 101 bytes, an output buffer is under 101, an answer or event isn't 12.
    BufferLength = 3,
    // The stored version isn't 1.
    Version = 4,
    // A padding bit is set.
    Padding = 5,
    // The descriptor's number is above 31.
    NoDescriptor = 6,
    // The descriptor is already valid.
    AlreadyValid = 7,
    // The event can't be delivered.
    Undeliverable = 8,
    // A push or vector read of a delivery violates or lacks memory.
    Fatal = 9,
    // The stored frame count isn't 1 to 16.
    FrameCount = 10,
}

impl Refusal {
    pub fn number(self) -> u8
        ensures { result ≡ number_of self }
    {
        self as u8
    }

    // Of a call that got this record.
    pub fn beside(self, machine: Machine) -> Refused
        ensures { result ≡ record { refusal = self; machine = machine } }
    {
        Refused {
            refusal: self,
            machine,
        }
    }
}

// A call on a record that did nothing: why, and the record as the call got it.
#[derive(Clone, Copy)]
pub struct Refused {
    pub refusal: Refusal,
    pub machine: Machine,
}

impl From<Refused> for Refusal {
    ghost from_gives = { λ x k. k ≡ x.refusal };

    fn from(x: Refused) -> Refusal {
        x.refusal
    }
}

// The number that an answer is refused by; 0 is no refusal.
pub fn refused_by(r: Result<(), Refusal>) -> u8
    ensures { result ≡ refused_by r }
{
    match r {
        Ok(()) => 0,
        Err(k) => k.number(),
    }
}
