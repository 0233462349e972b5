// A trial of a box: the cells and memory of its run, and what has been seen of it.
use bus::kinds::Event;
use cases::cells::Cells;
use cases::report;

// What a line has between its bars.
#[derive(Clone, Copy, PartialEq, Eq, PartialOrd, Ord)]
pub enum Field {
    Start,
    Manual,
    Instruction,
    Before,
    Bytes,
    After,
    Note,
    // No box: a line that begins with #.
    NoBox,
}

impl Field {
    fn next(self) -> Field {
        match self {
            Field::Start => Field::Manual,
            Field::Manual => Field::Instruction,
            Field::Instruction => Field::Before,
            Field::Before => Field::Bytes,
            Field::Bytes => Field::After,
            Field::After | Field::Note => Field::Note,
            Field::NoBox => Field::NoBox,
        }
    }
}

#[derive(Clone, Copy)]
pub struct Trial {
    pub cells: Cells,
    pub memory: [u8; 65536],
    pub field: Field,
    // The flags that the box leaves open, before; F before.
    pub open: u8,
    pub flags: u8,
    // Bytes of the instruction so far.
    pub length: u16,
    // The number of the event that the box names.
    pub named: u16,
    // Items after; items that differ or cannot be read.
    pub compared: u16,
    pub faults: u16,
}

fn write_difference(name: &[u8], is: u32, want: u32) {
    io::write_all(1, b" ");
    report::write_name(name);
    io::write_all(1, b" is ");
    io::print_hex(1, u64::from(is), 2);
    io::write_all(1, b", not ");
    io::print_hex(1, u64::from(want), 2);
}

impl Trial {
    pub fn new(open: u8) -> Trial {
        let mut cells = Cells::empty();
        cells.machine.regs.af = u16::from(open);
        cells.steps = 1;
        Trial {
            cells,
            memory: [0; 65536],
            field: Field::Start,
            open,
            flags: open,
            length: 0,
            named: 0,
            compared: 0,
            faults: 0,
        }
    }

    pub fn begin_line(&mut self, b: u8) {
        if (self.field == Field::Start) & (b != b'\n') {
            self.field = if b == b'#' {
                Field::NoBox
            } else {
                Field::Manual
            };
        }
    }

    fn run(&mut self) {
        let a = host::run(self.cells.machine(), &mut self.memory, self.cells.steps);
        let (refusal, m, e) = match a {
            Ok(r) => (0, r.machine, r.event),
            Err(k) => (k.refusal.number(), k.machine, Event::Completed),
        };
        self.cells.put_answer(refusal, m);
        self.cells.put_event(e);
    }

    // The next field; the run stands between the bytes and what is after.
    pub fn turn(&mut self) {
        let ran = self.field == Field::Bytes;
        self.field = self.field.next();
        if ran {
            self.run();
        }
    }

    pub fn unread(&mut self, name: &[u8]) {
        report::write_unread(name);
        self.faults = self.faults.wrapping_add(1);
    }

    pub fn compare(&mut self, name: &[u8], is: u32, want: u32) {
        self.compared = self.compared.wrapping_add(1);
        if is != want {
            write_difference(name, is, want);
            self.faults = self.faults.wrapping_add(1);
        }
    }
}
