// What an item can name besides memory: the machine, and what a call is given and answers.
use crate::item;
use regs::Machine;

#[derive(Clone, Copy)]
pub struct Cells {
    pub machine: Machine,
    // As a case writes them: 1 for the second bank, and any other number for the first.
    pub bankaf: u16,
    pub bankx: u16,
    pub refusal: u16,
    // The event's number, and what it carries; the first value has two cells.
    pub event: u16,
    pub upper: u16,
    pub first: u16,
    pub second: u16,
    // Steps allowed, and completed.
    pub steps: u16,
    // Bytes of memory or of a form, in two cells.
    pub bytes_upper: u16,
    pub bytes: u16,
    pub frames: u16,
    // A descriptor's number.
    pub n: u16,
}

// Where a value stands, and how much of it.
#[derive(Drop)]
pub enum Place<'a> {
    Word(&'a mut u16),
    Upper(&'a mut u16),
    Lower(&'a mut u16),
    Bit(&'a mut u16),
    Byte(&'a mut u8),
    // Two as one, the upper first.
    Long(&'a mut u16, &'a mut u16),
}

fn long(upper: u16, lower: u16) -> u32 {
    u32::from(upper) * 65536 + u32::from(lower)
}

fn with_upper(x: u16, v: u16) -> u16 {
    v % 256 * 256 + x % 256
}

fn with_lower(x: u16, v: u16) -> u16 {
    x / 256 * 256 + v % 256
}

impl<'a> Place<'a> {
    pub fn value(&self) -> u32 {
        match self {
            Place::Word(x) => u32::from(**x),
            Place::Upper(x) => u32::from(**x / 256),
            Place::Lower(x) => u32::from(**x % 256),
            Place::Bit(x) => u32::from(**x % 2),
            Place::Byte(x) => u32::from(**x),
            Place::Long(upper, lower) => long(**upper, **lower),
        }
    }

    // Whether the place holds v whole.
    pub fn put(&mut self, v: u32) -> bool {
        let word = (v % 65536) as u16;
        match self {
            Place::Word(x) | Place::Bit(x) => **x = word,
            Place::Upper(x) => **x = with_upper(**x, word),
            Place::Lower(x) => **x = with_lower(**x, word),
            Place::Byte(x) => **x = (v % 256) as u8,
            Place::Long(upper, lower) => {
                **upper = (v / 65536) as u16;
                **lower = word;
            }
        }
        self.value() == v
    }
}

impl Cells {
    pub fn bytes(&self) -> usize {
        long(self.bytes_upper, self.bytes) as usize
    }

    pub fn place(&mut self, name: &[u8]) -> Option<Place<'_>> {
        match name {
            b"A" => Some(Place::Upper(&mut self.machine.regs.af)),
            b"F" => Some(Place::Lower(&mut self.machine.regs.af)),
            b"B" => Some(Place::Upper(&mut self.machine.regs.bc)),
            b"C" => Some(Place::Lower(&mut self.machine.regs.bc)),
            b"D" => Some(Place::Upper(&mut self.machine.regs.de)),
            b"E" => Some(Place::Lower(&mut self.machine.regs.de)),
            b"H" => Some(Place::Upper(&mut self.machine.regs.hl)),
            b"L" => Some(Place::Lower(&mut self.machine.regs.hl)),
            b"BC" => Some(Place::Word(&mut self.machine.regs.bc)),
            b"DE" => Some(Place::Word(&mut self.machine.regs.de)),
            b"HL" => Some(Place::Word(&mut self.machine.regs.hl)),
            b"AF'" => Some(Place::Word(&mut self.machine.regs.af2)),
            b"BC'" => Some(Place::Word(&mut self.machine.regs.bc2)),
            b"DE'" => Some(Place::Word(&mut self.machine.regs.de2)),
            b"HL'" => Some(Place::Word(&mut self.machine.regs.hl2)),
            b"IX" => Some(Place::Word(&mut self.machine.regs.ix)),
            b"IY" => Some(Place::Word(&mut self.machine.regs.iy)),
            b"PC" => Some(Place::Word(&mut self.machine.regs.pc)),
            b"SP" => Some(Place::Word(&mut self.machine.regs.ssp)),
            b"USP" => Some(Place::Word(&mut self.machine.regs.usp)),
            _ => self.control_place(name),
        }
    }

    fn control_place(&mut self, name: &[u8]) -> Option<Place<'_>> {
        match name {
            b"BANKAF" => Some(Place::Bit(&mut self.bankaf)),
            b"BANKX" => Some(Place::Bit(&mut self.bankx)),
            b"MSR" => Some(Place::Word(&mut self.machine.ctl.msr)),
            b"TCR" => Some(Place::Byte(&mut self.machine.ctl.tcr)),
            b"IOPAGE" => Some(Place::Byte(&mut self.machine.ctl.iopage)),
            b"LIMIT" => Some(Place::Word(&mut self.machine.ctl.limit)),
            b"VECTOR" => Some(Place::Word(&mut self.machine.ctl.vector)),
            b"MMU" => Some(Place::Word(&mut self.machine.mmu)),
            // As D1F.
            [b'D', high, low] => self.descriptor(*high, *low),
            _ => self.call_place(name),
        }
    }

    fn descriptor(&mut self, high: u8, low: u8) -> Option<Place<'_>> {
        let n = item::byte(high, low)?;
        let d = self.machine.ds.get_mut(usize::from(n))?;
        Some(Place::Word(d))
    }

    fn call_place(&mut self, name: &[u8]) -> Option<Place<'_>> {
        match name {
            b"REFUSAL" => Some(Place::Word(&mut self.refusal)),
            b"EVENT" => Some(Place::Word(&mut self.event)),
            b"OUT" | b"NEXT" => Some(Place::Word(&mut self.second)),
            b"PORT" | b"OPERAND" | b"AT" => Some(Place::Long(&mut self.upper, &mut self.first)),
            // The first value over the second.
            b"BOTH" => Some(Place::Long(&mut self.first, &mut self.second)),
            b"STEPS" => Some(Place::Word(&mut self.steps)),
            b"BYTES" => Some(Place::Long(&mut self.bytes_upper, &mut self.bytes)),
            b"FRAMES" => Some(Place::Word(&mut self.frames)),
            b"N" => Some(Place::Word(&mut self.n)),
            _ => None,
        }
    }
}
