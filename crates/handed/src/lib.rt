// The event that the 12 bytes of an answer hand to delivery.
#![tactic(auto)]

mod delivered;

ghost use Rattle.std.specs.Prelude.{◌≡◌, length};
ghost use Rattle.handed.specs.Handed.{event_in};

use bus::kinds::Event;

pub fn event_in(s: &[u8]) -> Event
    requires { length s.now ≡ 12 }
    ensures { result ≡ event_in s.now }
{
    let number = u16::from_le_bytes([s[0], s[1]]);
    let first = u32::from_le_bytes([s[4], s[5], s[6], s[7]]);
    let second = u32::from_le_bytes([s[8], s[9], s[10], s[11]]);
    delivered::event_of(number, first, second)
}
