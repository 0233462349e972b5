// Items after, and the end of a box.
use crate::before::{flags, is_flags};
use crate::trial::{Field, Trial};
use cases::item::Item;
use cases::memory;

impl Trial {
    // An event is compared at the end.
    fn name_event(&mut self, v: u32) {
        self.named = (v % 65536) as u16;
        self.compared = self.compared.wrapping_add(1);
    }

    fn see_number(&mut self, name: &[u8], v: u32) {
        if matches!(name, b"EVENT") {
            self.name_event(v);
            return;
        }
        let is = memory::get(name, &mut self.cells, &self.memory);
        self.compare(name, is.unwrap_or(0xFFFFFFFF), v);
    }

    pub fn see_item(&mut self, i: Item) {
        let name = i.name.letters();
        if is_flags(i) {
            let want = flags(i, self.flags);
            let is = self.cells.machine.regs.af % 256;
            self.compare(name, u32::from(is), u32::from(want));
            return;
        }
        match i.number() {
            Some(v) => self.see_number(name, v),
            None => self.unread(name),
        }
    }

    // Whether nothing is wrong in it: a box that has no field after, or nothing to compare, is.
    pub fn is_right(&mut self) -> bool {
        if (self.field < Field::After) | (self.compared == 0) {
            self.unread(b"");
        }
        self.compare(b"EVENT", u32::from(self.cells.event), u32::from(self.named));
        self.compare(b"REFUSAL", u32::from(self.cells.refusal), 0);
        self.faults == 0
    }
}
