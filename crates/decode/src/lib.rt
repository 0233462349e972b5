// What an operation code means: a table of 256 entries for each opening byte sequence (document 01), proved equal to the manual's formats.
#![tactic(auto)]

ghost use Rattle.std.specs.Prelude.{◌≡◌};
ghost use Rattle.decode.specs.Opening.{entered, tabled, opening_of, after_opening};
ghost use Rattle.decode.specs.Entry.{op_in, reads_in, mode_in, bytes_in};

mod cb;
mod dd;
mod dd_cb;
mod dd_ed;
mod ed;
mod fd;
mod fd_cb;
mod fd_ed;
pub mod mode;
mod none;
pub mod op;

// The nine tables, held and lent: a const table would be copied at each lookup.
#[derive(Drop)]
pub struct Entries {
    entries: [[u16; 256]; 9],
    ghost told: { entries ≡ tabled },
}

// The nine tables in the order of the openings' numbers.
pub fn tables() -> [[u16; 256]; 9]
    ensures { result ≡ tabled }
{
    let none = none::table();
    let cb = cb::table();
    let ed = ed::table();
    let dd = dd::table();
    let fd = fd::table();
    let dd_cb = dd_cb::table();
    let fd_cb = fd_cb::table();
    let dd_ed = dd_ed::table();
    let fd_ed = fd_ed::table();
    [none, cb, ed, dd, fd, dd_cb, fd_cb, dd_ed, fd_ed]
}

// The entry of the operation code b after the opening o.
pub fn entry_in(t: &[[u16; 256]; 9], o: u8, b: u8) -> u16
    requires { t.now ≡ tabled }
    ensures { result ≡ entered o b }
{
    if o > 8 {
        return 0;
    }
    t[o as usize][b as usize]
}

impl Entries {
    pub fn new() -> Entries {
        let entries = tables();
        Entries { entries }
    }

    pub fn entry(&self, o: u8, b: u8) -> u16
        ensures { result ≡ entered o b }
    {
        entry_in(&self.entries, o, b)
    }
}

pub fn entry(o: u8, b: u8) -> u16
    ensures { result ≡ entered o b }
{
    Entries::new().entry(o, b)
}

// The opening that a first byte begins, by the index of its table; 0, the index of the table without an opening, where it begins none.
#[tactic(auto, unfolding(crate::specs::Opening::opening_of))]
pub fn opening_of(b: u8) -> u8
    ensures { result ≡ opening_of b }
{
    match b {
        0xCB => 1,
        0xED => 2,
        0xDD => 3,
        0xFD => 4,
        _ => 0,
    }
}

// The opening that a byte after DD or FD (o is 3 or 4) begins; 0 where it begins none.
#[tactic(auto, unfolding(crate::specs::Opening::after_opening))]
pub fn after_opening(o: u8, b: u8) -> u8
    ensures { result ≡ after_opening o b }
{
    match (o, b) {
        (3, 0xCB) => 5,
        (3, 0xED) => 7,
        (4, 0xCB) => 6,
        (4, 0xED) => 8,
        _ => 0,
    }
}

pub fn op_of(e: u16) -> u8
    ensures { result ≡ op_in e }
{
    (e / 512) as u8
}

// How many bytes are read at the operand's place: 0, 1, 2 or 4.
pub fn reads_of(e: u16) -> u8
    ensures { result ≡ reads_in e }
{
    let field = (e / 128 % 4) as u8;
    let four = field == 3;
    if four {
        return 4;
    }
    field
}

pub fn mode_of(e: u16) -> u8
    ensures { result ≡ mode_in e }
{
    (e / 8 % 16) as u8
}

// How many bytes follow the operation code.
pub fn bytes_of(e: u16) -> u8
    ensures { result ≡ bytes_in e }
{
    (e % 8) as u8
}
