// The table of kept places that a run holds, and what it was filled for.
ghost use Rattle.std.specs.Prelude.{◌≡◌};
ghost use Rattle.steps.specs.Table.{Table};

use kept::table::fill;
use mmu::Mode;

// size: memory's length. The bits are the mode's.
#[derive(Drop)]
pub struct Held {
    pub places: [u32; 48],
    pub user: bool,
    pub bits: u8,
    pub ds: [u16; 32],
    pub size: usize,
    pub ghost stands: { Table places user bits ds size },
}

impl Held {
    // Nothing is kept, and the bits are no mode's: so the first table is filled.
    pub fn new(size: usize) -> Held
        ensures { result.size ≡ size }
    {
        Held {
            places: [1; 48],
            user: false,
            bits: 4,
            ds: [0; 32],
            size,
        }
    }

    // The table for this mode and these descriptors, filled anew where it is another's.
    pub fn refresh(&mut self, mode: Mode, ds: &[u16; 32])
        ensures user { self.new.user ≡ mode.user }
        ensures bits { self.new.bits ≡ mode.bits }
        ensures ds { self.new.ds ≡ ds.now }
        ensures size { self.new.size ≡ self.old.size }
    {
        let same = mode.bits == self.bits && mode.user == self.user && *ds == self.ds;
        if !same {
            fill(mode, ds, self.size, &mut self.places);
            self.user = mode.user;
            self.bits = mode.bits;
            self.ds = *ds;
        }
    }
}
