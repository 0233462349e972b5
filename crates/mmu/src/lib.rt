// The memory unit: MMU control, 32 page descriptors, and translation of logical to physical addresses.
#![tactic(auto)]

ghost use Rattle.std.specs.Prelude.{◌≡◌, ◌+◌, ◌<◌, ◌≤◌, ◌%◌, cond, get_or};
ghost use Rattle.mmu.specs.Translate.{mode_bits, translating, barred, index, number_of, physical, by_descriptor, placed, translate, marked, valid, set_modified, set_valid, change, latched};

// An access violation, by the number of the descriptor that bars the access.
#[derive(Clone, Copy, Debug, PartialEq, Eq)]
pub struct Violated {
    pub descriptor: u8,
}

// How a step's accesses are translated. MMU control is in it for what is promised; the bits are what decides.
#[derive(Clone, Copy)]
pub struct Mode {
    pub user: bool,
    pub control: u16,
    pub bits: u8,
    pub ghost enabled: { bits ≡ mode_bits control user },
}

// The enable bits of the mode in force, translate 2 and separate 1: worked out once a step, and not at each access.
#[tactic(auto, unfolding(crate::specs::Translate::mode_bits))]
pub fn mode_bits(control: u16, user: bool) -> u8
    ensures value { result ≡ mode_bits control user }
    ensures upper_bound { result < 4 }
{
    if user {
        (control / 16384 % 4) as u8
    } else {
        (control / 1024 % 4) as u8
    }
}

// 8 for program, 0 for data.
fn half_of(program: bool) -> u8
    ensures value { result ≡ cond program 8 0 }
    ensures upper_bound { result ≤ 8 }
{
    if program { 8 } else { 0 }
}

#[tactic(auto, unfolding(crate::specs::Translate::index))]
fn index_of(apart: bool, program: bool, a: u16) -> u8
    ensures value { result ≡ index apart program a }
    ensures upper_bound { result < 16 }
{
    if apart {
        half_of(program) + (a / 8192 % 8) as u8
    } else {
        (a / 4096 % 16) as u8
    }
}

// 0 for the user's sixteen descriptors, 16 for the system's.
fn first_of(user: bool) -> u8
    ensures value { result ≡ cond user 0 16 }
    ensures upper_bound { result ≤ 16 }
{
    if user { 0 } else { 16 }
}

fn page_of(apart: bool, user: bool, program: bool, a: u16) -> u8
    ensures value { result ≡ cond user 0 16 + index apart program a }
    ensures upper_bound { result < 32 }
{
    let k = index_of(apart, program, a);
    first_of(user) + k
}

#[tactic(auto, unfolding(crate::specs::Translate::barred))]
fn is_barred(write: bool, d: u16) -> bool
    ensures { result ≡ barred write d }
{
    let ok = d / 8 % 2 == 1;
    if ok {
        if write { d / 4 % 2 == 1 } else { false }
    } else {
        true
    }
}

#[tactic(auto, unfolding(crate::specs::Translate::physical))]
fn physical_of(apart: bool, d: u16, a: u16) -> u64
    ensures { result ≡ physical apart d a }
{
    if apart {
        (d / 32) as u64 * 8192 + (a % 8192) as u64
    } else {
        (d / 16) as u64 * 4096 + (a % 4096) as u64
    }
}

#[tactic(auto, unfolding(crate::specs::Translate::by_descriptor))]
fn by_descriptor(apart: bool, n: u8, d: u16, write: bool, a: u16) -> Result<u64, Violated>
    ensures { result ≡ by_descriptor apart n d write a }
{
    if is_barred(write, d) {
        return Err(Violated { descriptor: n });
    }
    Ok(physical_of(apart, d, a))
}

fn by_page(
    apart: bool,
    user: bool,
    ds: &[u16; 32],
    program: bool,
    write: bool,
    a: u16,
) -> Result<u64, Violated>
    ensures { result ≡ by_descriptor apart (cond user 0 16 + index apart program a) (get_or ds.now (cond user 0 16 + index apart program a) 0) write a }
{
    let n = page_of(apart, user, program, a);
    by_descriptor(apart, n, ds[n as usize], write, a)
}

// The number of the descriptor that an address is translated by.
#[tactic(auto, unfolding(crate::specs::Translate::number_of))]
pub fn number_of(bits: u8, user: bool, program: bool, a: u16) -> u8
    ensures value { result ≡ number_of bits user program a }
    ensures upper_bound { result < 32 }
{
    let apart = bits % 2 == 1;
    page_of(apart, user, program, a)
}

// By any two enable bits; those above them say nothing. Each way of choosing pages is called for by itself: where `apart` is known, an
// address is a shift and a mask.
#[tactic(auto, unfolding(crate::specs::Translate::placed, crate::specs::Translate::number_of))]
#[inline(always)]
pub fn translate(
    bits: u8,
    user: bool,
    ds: &[u16; 32],
    program: bool,
    write: bool,
    a: u16,
) -> Result<u64, Violated>
    ensures { result ≡ placed bits user ds.now program write a }
{
    let on = bits / 2 % 2 == 1;
    if !on {
        return Ok(u64::from(a));
    }
    let apart = bits % 2 == 1;
    if apart {
        by_page(true, user, ds, program, write, a)
    } else {
        by_page(false, user, ds, program, write, a)
    }
}

// The page of a write gets its modified bit, where it is translated.
#[tactic(auto, unfolding(crate::specs::Translate::marked))]
pub fn mark(bits: u8, user: bool, ds: &mut [u16; 32], program: bool, a: u16)
    ensures { ds.new ≡ marked bits user program a ds.old }
{
    let on = bits / 2 % 2 == 1;
    if on {
        let n = number_of(bits, user, program, a);
        let i = n as usize;
        let d = modified_of(ds[i]);
        ds[i] = d;
    }
}

// What a step's accesses ask, by the mode that it is in.
impl Mode {
    pub fn of(control: u16, user: bool) -> Mode
        ensures control_value { result.control ≡ control }
        ensures user_value { result.user ≡ user }
    {
        let bits = mode_bits(control, user);
        Mode {
            user,
            control,
            bits,
        }
    }

    // Whether addresses are translated at all.
    pub fn translates(self) -> bool
        ensures { result ≡ translating (mode_bits self.control self.user) }
    {
        self.bits / 2 % 2 == 1
    }

    pub fn number_of(self, program: bool, a: u16) -> u8
        ensures value { result ≡ number_of (mode_bits self.control self.user) self.user program a }
        ensures upper_bound { result < 32 }
    {
        number_of(self.bits, self.user, program, a)
    }

    #[tactic(auto, unfolding(crate::specs::Translate::translate))]
    #[inline(always)]
    pub fn translate(
        self,
        ds: &[u16; 32],
        program: bool,
        write: bool,
        a: u16,
    ) -> Result<u64, Violated>
        ensures { result ≡ translate self.control self.user ds.now program write a }
    {
        translate(self.bits, self.user, ds, program, write, a)
    }

    #[inline(always)]
    pub fn mark(self, ds: &mut [u16; 32], program: bool, a: u16)
        ensures { ds.new ≡ marked (mode_bits self.control self.user) self.user program a ds.old }
    {
        mark(self.bits, self.user, ds, program, a);
    }
}

fn modified_of(d: u16) -> u16
    ensures { result ≡ set_modified d }
{
    d / 2 * 2 + 1
}

fn valid_bit(d: u16) -> bool
    ensures { result ≡ valid d }
{
    d / 8 % 2 == 1
}

// The valid bit of descriptor n, by its lowest five bits.
pub fn is_valid(ds: &[u16; 32], n: u8) -> bool
    ensures { result ≡ valid (get_or ds.now (n % 32) 0) }
{
    let i = (n % 32) as usize;
    valid_bit(ds[i])
}

fn valid_of(d: u16) -> u16
    ensures { result ≡ set_valid d }
{
    d + 8 * (1 - d / 8 % 2)
}

// Sets the valid bit of descriptor n, by its lowest five bits, and nothing else.
pub fn make_valid(ds: &mut [u16; 32], n: u8)
    ensures { ds.new ≡ change set_valid (n % 32) ds.old }
{
    let i = (n % 32) as usize;
    let d = valid_of(ds[i]);
    ds[i] = d;
}

// MMU control with n as the last faulting descriptor.
pub fn latch(control: u16, n: u8) -> u16
    ensures { result ≡ latched n control }
{
    control / 32 * 32 + (n % 32) as u16
}
