// Which events are delivered, by which vector and with which words.
ghost use Rattle.std.specs.Prelude.{◌≡◌};
ghost use Rattle.deliver.specs.Deliver.{trap_of, stopped};

use bus::kinds::Event;
use plan::kinds::Stop;

// The vector's offset and the carried address; in `Three` a third word to be pushed.
#[derive(Clone, Copy)]
pub enum Trap {
    Two(u16, u16),
    Three(u16, u16, u16),
}

#[tactic(auto, unfolding(crate::specs::Deliver::stopped))]
fn stop_trap(s: Stop) -> Option<Trap>
    ensures { result ≡ stopped s }
{
    match s {
        Stop::Privileged(a) => Some(Trap::Two(0x54, a)),
        Stop::Call(operand, next) => Some(Trap::Three(0x50, next, operand)),
        Stop::Break(a) => Some(Trap::Two(0x40, a)),
        Stop::Extended(_) | Stop::Halted | Stop::Port(_, _) | Stop::Nothing(_) => None,
    }
}

#[tactic(auto, unfolding(crate::specs::Deliver::trap_of))]
pub fn trap_of(e: Event) -> Option<Trap>
    ensures { result ≡ trap_of e }
{
    match e {
        Event::Violation(_, a) => Some(Trap::Two(0x4C, a)),
        Event::Stopped(s) => stop_trap(s),
        Event::Completed | Event::Absent(_) => None,
    }
}
