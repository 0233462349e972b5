// Runs the worked example boxes of the manual through the machine. Standard input has a box to a line and says at its head how one is
// written. Each is run in two trials at once, its open flags clear in one and set in the other. A line is written for each box, with what
// differs in it, and then a total.
#![tactic(auto)]

mod after;
mod before;
mod trial;

use crate::trial::{Field, Trial};
use cases::item::Item;
use cases::report;

// The end of an item, at b.
fn settle(i: Item, x: &mut Trial, b: u8) {
    let name = i.name.letters();
    if !name.is_empty() {
        match x.field {
            Field::Before => x.put_item(i),
            Field::Bytes => x.put_byte(name),
            Field::After => x.see_item(i),
            _ => {}
        }
    }
    if b == b'|' {
        x.turn();
    }
}

// The line and the instruction are written again.
fn echo(field: Field, b: u8) {
    if (field < Field::Before) & (b != b'|') & (b != b'\n') {
        report::write_letter(b);
    }
}

fn goes_on(b: u8) -> bool {
    (b != b' ') & (b != b'|') & (b != b'\n')
}

// Both trials, with the item that is being read, the boxes so far, and those that went wrong.
#[derive(Clone, Copy)]
struct Boxes {
    clear: Trial,
    set: Trial,
    item: Item,
    boxes: u16,
    wrong: u16,
}

impl Boxes {
    fn new() -> Boxes {
        Boxes {
            clear: Trial::new(0),
            set: Trial::new(0xFF),
            item: Item::empty(),
            boxes: 0,
            wrong: 0,
        }
    }

    fn end_box(&mut self) {
        if (self.clear.field == Field::Start) | (self.clear.field == Field::NoBox) {
            return;
        }
        let clear = self.clear.is_right();
        let set = self.set.is_right();
        self.boxes = self.boxes.wrapping_add(1);
        if clear & set {
            io::write_all(1, b" ok\n");
        } else {
            io::write_all(1, b"\n");
            self.wrong = self.wrong.wrapping_add(1);
        }
    }

    fn take(&mut self, b: u8) {
        self.clear.begin_line(b);
        self.set.begin_line(b);
        echo(self.clear.field, b);
        if goes_on(b) {
            self.item = self.item.letter(b);
            return;
        }
        settle(self.item, &mut self.clear, b);
        settle(self.item, &mut self.set, b);
        self.item = Item::empty();
        if b == b'\n' {
            self.end_box();
            self.clear = Trial::new(0);
            self.set = Trial::new(0xFF);
        }
    }
}

fn run_boxes(s: &[u8]) {
    let mut all = Boxes::new();
    for &b in s {
        all.take(b);
    }
    all.take(b'\n');
    report::write_total(all.boxes, b" boxes, ", all.wrong);
}

fn main() {
    let mut text = io::large_buffer();
    let n = io::read_full(0, &mut text);
    if n == 65536 {
        io::write_all(1, b"the boxes take more than 65535 bytes\n");
        return;
    }
    run_boxes(&text[..n]);
}
