// Items over cells and memory.
ghost use Rattle.std.specs.Prelude.{◌<◌, IfSome, length};

use crate::cells::Cells;
use crate::item::{self, Item};

// As [2454] or {2454}, by its first letter.
fn address(name: &[u8], opening: u8) -> Option<usize> {
    let [first, a, b, c, d, _] = name else {
        return None;
    };
    if *first != opening {
        return None;
    }
    let high = item::byte(*a, *b)?;
    let low = item::byte(*c, *d)?;
    Some(usize::from(u16::from_be_bytes([high, low])))
}

// The address of a byte that w has.
fn byte_in(name: &[u8], w: &[u8]) -> Option<usize>
    ensures { IfSome result (λ a. a < length w.now) }
{
    let a = address(name, b'[')?;
    if a < w.len() { Some(a) } else { None }
}

// Whether the item names a place and can be held there whole.
pub fn set(i: Item, x: &mut Cells, w: &mut [u8]) -> bool {
    let Some(v) = i.number() else {
        return false;
    };
    let name = i.name.letters();
    if let Some(a) = byte_in(name, w) {
        w[a] = (v % 256) as u8;
        return v < 256;
    }
    match x.place(name) {
        Some(mut p) => p.put(v),
        None => false,
    }
}

// Two bytes as they stand in memory.
fn two(w: &[u8], a: usize) -> Option<u32> {
    let [high, low, ..] = w.get(a..)? else {
        return None;
    };
    Some(u32::from(u16::from_be_bytes([*high, *low])))
}

// What stands at a place, where the name gives one.
pub fn get(name: &[u8], x: &mut Cells, w: &[u8]) -> Option<u32> {
    if let Some(a) = byte_in(name, w) {
        return Some(u32::from(w[a]));
    }
    match x.place(name) {
        Some(p) => Some(p.value()),
        None => two(w, address(name, b'{')?),
    }
}
