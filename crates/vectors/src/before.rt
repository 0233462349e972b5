// Items before, and the bytes of the instruction.
use crate::trial::Trial;
use cases::item::Item;
use cases::{item, memory};

// Whether the item is F as eight flags.
pub fn is_flags(i: Item) -> bool {
    matches!(i.name.letters(), b"F") & (i.letters == 8)
}

// The eight flags of an item; those that it does not show are as in `open`.
pub fn flags(i: Item, open: u8) -> u8 {
    i.ones | open & !i.shown
}

impl Trial {
    pub fn put_item(&mut self, i: Item) {
        if is_flags(i) {
            self.flags = flags(i, self.open);
            let af = self.cells.machine.regs.af;
            self.cells.machine.regs.af = af / 256 * 256 + u16::from(self.flags);
            return;
        }
        if !memory::set(i, &mut self.cells, &mut self.memory) {
            self.unread(i.name.letters());
        }
    }

    pub fn put_byte(&mut self, name: &[u8]) {
        let v = match name {
            [high, low] => item::byte(*high, *low),
            _ => None,
        };
        let Some(v) = v else {
            self.unread(name);
            return;
        };
        let a = self.cells.machine.regs.pc.wrapping_add(self.length);
        self.memory[usize::from(a)] = v;
        self.length = self.length.wrapping_add(1);
    }
}
