// Events by document 01's numbers and values, and the 12 bytes in which a call for C hands one over: number, completed steps, first
// value, second value, of 2, 2, 4 and 4 bytes, low byte first.
#![tactic(auto)]

ghost use Rattle.std.specs.Prelude.{◌≡◌, length};
ghost use Rattle.bus.specs.Leave.{event_of};
ghost use Rattle.events.specs.Events.{numbers, stop_numbers, event_numbers};
ghost use Rattle.events.specs.Bytes.{answer_bytes};

use bus::kinds::Event;
use plan::kinds::Stop;

pub const BYTES: usize = 12;

// Number, first value, second value.
#[derive(Clone, Copy)]
pub struct Numbered {
    pub number: u16,
    pub first: u64,
    pub second: u64,
}

fn with_values(number: u16, first: u64, second: u64) -> Numbered
    ensures { result ≡ numbers number first second }
{
    Numbered {
        number,
        first,
        second,
    }
}

impl From<Stop> for Numbered {
    ghost from_gives = { λ s n. n ≡ stop_numbers s };

    #[tactic(auto, unfolding(crate::specs::Events::stop_numbers))]
    fn from(s: Stop) -> Numbered {
        match s {
            Stop::Privileged(a) => with_values(3, u64::from(a), 0),
            Stop::Call(operand, next) => with_values(4, u64::from(operand), u64::from(next)),
            Stop::Extended(a) => with_values(5, u64::from(a), 0),
            Stop::Halted => with_values(6, 0, 0),
            Stop::Break(a) => with_values(7, u64::from(a), 0),
            Stop::Port(p, out) => with_values(8, u64::from(p), u64::from(out)),
            Stop::Nothing(a) => with_values(9, u64::from(a), 0),
        }
    }
}

impl From<Event> for Numbered {
    ghost from_gives = { λ e n. n ≡ event_numbers (event_of e) };

    #[tactic(auto, unfolding(crate::specs::Events::event_numbers, bus::specs::Leave::event_of))]
    fn from(e: Event) -> Numbered {
        match e {
            Event::Completed => with_values(0, 0, 0),
            Event::Violation(n, a) => with_values(1, u64::from(n), u64::from(a)),
            Event::Absent(p) => with_values(2, p, 0),
            Event::Stopped(s) => Numbered::from(s),
        }
    }
}

fn laid_out(e: Numbered, steps: u16) -> [u8; 12]
    ensures { result ≡ answer_bytes e steps }
{
    let [n0, n1] = e.number.to_le_bytes();
    let [s0, s1] = steps.to_le_bytes();
    let [a0, a1, a2, a3, ..] = e.first.to_le_bytes();
    let [b0, b1, b2, b3, ..] = e.second.to_le_bytes();
    [n0, n1, s0, s1, a0, a1, a2, a3, b0, b1, b2, b3]
}

// The event and the completed steps into the 12 bytes.
pub fn put_answer(out: &mut [u8], e: Event, steps: u16)
    requires { length out.old ≡ 12 }
    ensures { out.new ≡ answer_bytes (event_numbers (event_of e)) steps }
{
    out.copy_from_slice(&laid_out(Numbered::from(e), steps));
}
