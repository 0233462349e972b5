// Cases as text, one to a line: its name, `|`, and items, one after the other. NAME=VALUE sets a place, a name alone is a call of the
// program's, and NAME?VALUE is compared and written.
use crate::cells::Cells;
use crate::item::{Item, Mark};
use crate::{memory, report};

#[derive(Clone, Copy)]
struct Script {
    cells: Cells,
    item: Item,
    // Whether the case's name has been read; the cases so far.
    named: bool,
    cases: u16,
    wrong: u16,
}

fn write_case(is: u32, want: u32) {
    io::write_all(1, b": ");
    io::print_hex(1, u64::from(is), 1);
    io::write_all(1, b" ");
    io::print_hex(1, u64::from(want), 1);
    if is == want {
        io::write_all(1, b" ok\n");
    } else {
        io::write_all(1, b" WRONG\n");
    }
}

// Before a case. Its refusal is none of the document's until a call gives one.
fn fresh() -> Cells {
    let mut x = Cells::empty();
    x.refusal = 0xFFFF;
    x
}

fn ends(b: u8) -> bool {
    (b == b' ') | (b == b'\n')
}

impl Script {
    fn new() -> Script {
        Script {
            cells: fresh(),
            item: Item::empty(),
            named: false,
            cases: 0,
            wrong: 0,
        }
    }

    fn note(&mut self, is: u32, want: u32) {
        write_case(is, want);
        self.cases = self.cases.wrapping_add(1);
        if is != want {
            self.wrong = self.wrong.wrapping_add(1);
        }
    }

    fn unread(&mut self, name: &[u8]) {
        report::write_unread(name);
        self.wrong = self.wrong.wrapping_add(1);
    }

    // The end of an item. What a name without a place has is written as FFFFFFFF.
    fn settle(&mut self, w: &mut [u8]) {
        let i = self.item;
        let name = i.name.letters();
        match i.mark {
            Some(Mark::Compare) => {
                let is = memory::get(name, &mut self.cells, w);
                self.note(is.unwrap_or(0xFFFFFFFF), i.value);
            }
            Some(Mark::Set) => {
                if !memory::set(i, &mut self.cells, w) {
                    self.unread(name);
                }
            }
            None => {}
        }
    }

    fn in_name(&mut self, b: u8) {
        if b == b'|' {
            self.named = true;
        } else {
            report::write_letter(b);
        }
    }

    // The call that the item names, over the first BYTES of w.
    fn call<F: Fn(&[u8], &mut Cells, &mut [u8]) -> bool>(&mut self, w: &mut [u8], call: &F)
        requires { F.IsAlwaysCallable call.now }
    {
        let name = self.item.name;
        let name = name.letters();
        // Stays where no call is made.
        self.cells.refusal = 0xFFFF;
        if let Some(lent) = w.get_mut(..self.cells.bytes()) {
            if !call(name, &mut self.cells, lent) {
                self.unread(name);
            }
        }
    }

    // The next letter of the cases.
    fn take(&mut self, w: &mut [u8], b: u8) {
        if !self.named {
            self.in_name(b);
            return;
        }
        if !ends(b) {
            self.item = self.item.letter(b);
            return;
        }
        self.settle(w);
        self.item = Item::empty();
        if b == b'\n' {
            self.cells = fresh();
            self.named = false;
        }
    }
}

// Whether b ends the name of a call.
fn is_call(i: Item, b: u8) -> bool {
    ends(b) & !i.name.letters().is_empty() & i.mark.is_none()
}

// Runs the cases that s has, over a memory of zeros. `call` makes the call of a name, and answers whether there is one.
pub fn run<F: Fn(&[u8], &mut Cells, &mut [u8]) -> bool>(s: &[u8], w: &mut [u8], call: F)
    requires { F.IsAlwaysCallable call }
{
    let mut script = Script::new();
    for &b in s {
        if is_call(script.item, b) {
            script.call(w, &call);
        }
        script.take(w, b);
        if b == b'\n' {
            w.fill(0);
        }
    }
    report::write_total(script.cases, b" cases, ", script.wrong);
}
