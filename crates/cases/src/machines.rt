// The machine and the event that cells stand for, and the cells of those that a call answers.
ghost use Rattle.std.specs.Prelude.{◌≡◌};
ghost use Rattle.bus.specs.Leave.{event_of};
ghost use Rattle.events.specs.Events.{event_numbers};

use crate::cells::Cells;
use bus::kinds::Event;
use events::Numbered;
use plan::kinds::Stop;
use regs::Machine;

// By document 01's number, as a case's text gives it.
fn stop(number: u16, first: u16, second: u16) -> Stop {
    match number {
        3 => Stop::Privileged(first),
        4 => Stop::Call(first, second),
        5 => Stop::Extended(first),
        6 => Stop::Halted,
        7 => Stop::Break(first),
        8 => Stop::Port(u32::from(first), second == 1),
        _ => Stop::Nothing(first),
    }
}

impl Cells {
    pub fn empty() -> Cells {
        Cells {
            machine: legal::reset(),
            bankaf: 0,
            bankx: 0,
            refusal: 0,
            event: 0,
            upper: 0,
            first: 0,
            second: 0,
            steps: 0,
            bytes_upper: 0,
            bytes: 0,
            frames: 0,
            n: 0,
        }
    }

    pub fn machine(&self) -> Machine {
        let mut m = self.machine;
        m.regs.bankaf = self.bankaf == 1;
        m.regs.bankx = self.bankx == 1;
        m
    }

    // The event, of its number and the lower halves of what it carries.
    pub fn event(&self) -> Event {
        match self.event {
            0 => Event::Completed,
            1 => Event::Violation((self.first % 32) as u8, self.second),
            2 => Event::Absent(u64::from(self.first)),
            n => Event::Stopped(stop(n, self.first, self.second)),
        }
    }

    // The refusal by its number, since a case compares it as a cell.
    pub fn put_answer(&mut self, refusal: u8, m: Machine)
        ensures { (self.new.refusal ≡ refusal) × (self.new.machine ≡ m) }
    {
        self.refusal = u16::from(refusal);
        self.machine = m;
        self.bankaf = u16::from(m.regs.bankaf);
        self.bankx = u16::from(m.regs.bankx);
    }

    pub fn put_event(&mut self, e: Event)
        ensures { self.new.event ≡ (event_numbers (event_of e)).number }
    {
        let n = Numbered::from(e);
        self.event = n.number;
        self.upper = (n.first / 65536 % 65536) as u16;
        self.first = (n.first % 65536) as u16;
        self.second = (n.second % 65536) as u16;
    }
}
