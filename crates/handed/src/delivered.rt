// The event that numbers name to delivery: 1, 3, 4 or 7 with values in their range. All others read as event 0, which delivery refuses.
ghost use Rattle.std.specs.Prelude.{◌≡◌};
ghost use Rattle.handed.specs.Handed.{violation_in, alone, call_in, taken, delivered};

use bus::kinds::Event;
use plan::kinds::Stop;

#[tactic(auto, unfolding(crate::specs::Handed::violation_in))]
fn violation_in(n: u32, a: u32) -> Option<Event>
    ensures { result ≡ violation_in n a }
{
    if 32 <= n {
        return None;
    }
    let a = u16::try_from(a).ok()?;
    Some(Event::Violation(n as u8, a))
}

// An address, with nothing as the second value.
#[tactic(auto, unfolding(crate::specs::Handed::alone))]
fn alone(a: u32, none: u32) -> Option<u16>
    ensures { result ≡ alone a none }
{
    if none != 0 {
        return None;
    }
    u16::try_from(a).ok()
}

#[tactic(auto, unfolding(crate::specs::Handed::call_in))]
fn call_in(operand: u32, next: u32) -> Option<Event>
    ensures { result ≡ call_in operand next }
{
    let operand = u16::try_from(operand).ok()?;
    let next = u16::try_from(next).ok()?;
    Some(Event::Stopped(Stop::Call(operand, next)))
}

// By document 01's number, as the bytes of a call for C give it.
#[tactic(auto, unfolding(crate::specs::Handed::taken))]
fn taken(number: u16, first: u32, second: u32) -> Option<Event>
    ensures { result ≡ taken number first second }
{
    match number {
        1 => violation_in(first, second),
        3 => alone(first, second).map(|a| Event::Stopped(Stop::Privileged(a))),
        4 => call_in(first, second),
        7 => alone(first, second).map(|a| Event::Stopped(Stop::Break(a))),
        _ => None,
    }
}

#[tactic(auto, unfolding(crate::specs::Handed::delivered))]
pub fn event_of(number: u16, first: u32, second: u32) -> Event
    ensures { result ≡ delivered number first second }
{
    taken(number, first, second).unwrap_or(Event::Completed)
}
