// The stored form of the machine: 101 bytes, by one table of fields and widths for writer and reader.
#![tactic(auto)]

ghost use Rattle.std.specs.Prelude.{◌≡◌, ◌≤◌, length};
ghost use Rattle.legal.specs.Refusal.{number_of, refused_by};
ghost use Rattle.form.specs.Form.{first_fields, fields_of, regs_of, control_of, machine_with, machine_of, write_refusal, written, reading, refused, read_fields, read_form};

use legal::refusal::Refusal;
use regs::{Control, Machine, Regs};

// What a form names: the machine, and the frames of its memory.
#[derive(Clone, Copy)]
pub struct Restored {
    pub machine: Machine,
    pub frames: u16,
}

// A form that is refused, and what stands for what it names: the reset record and one frame.
#[derive(Clone, Copy)]
pub struct Unread {
    pub refusal: Refusal,
    pub restored: Restored,
}

impl From<Unread> for Refusal {
    ghost from_gives = { λ u k. k ≡ u.refusal };

    fn from(u: Unread) -> Refusal {
        u.refusal
    }
}

// Version; frames less one; AF, BC, DE, HL, the alternates, IX, IY, PC, system SP, user SP; bank bits AF and others; MSR, TCR, I/O page,
// stack limit, vector pointer, MMU control; thirty-two descriptors; zero bits.
const WIDTHS: [u8; 56] = [
    8, 4, 16, 16, 16, 16, 16, 16, 16, 16, 16, 16, 16, 16, 16, 1, 1, 16, 3, 8, 12, 12, 16, 16, 16,
    16, 16, 16, 16, 16, 16, 16, 16, 16, 16, 16, 16, 16, 16, 16, 16, 16, 16, 16, 16, 16, 16, 16, 16,
    16, 16, 16, 16, 16, 16, 7,
];

const VERSION: u16 = 1;

pub const LENGTH: usize = 101;

const MOST_FRAMES: u16 = 16;

// The values of the fields before the descriptors.
fn first_fields(m: Machine, frames: u16) -> [u16; 23]
    requires { 1 ≤ frames }
    ensures { result ≡ first_fields m frames }
{
    let r = m.regs;
    let c = m.ctl;
    let less = frames - 1;
    let tcr = c.tcr as u16;
    let iopage = c.iopage as u16;
    let limit = c.limit / 16;
    let vector = c.vector / 16;
    let bankaf = u16::from(r.bankaf);
    let bankx = u16::from(r.bankx);
    [
        VERSION, less, r.af, r.bc, r.de, r.hl, r.af2, r.bc2, r.de2, r.hl2, r.ix, r.iy, r.pc, r.ssp,
        r.usp, bankaf, bankx, c.msr, tcr, iopage, limit, vector, m.mmu,
    ]
}

// The values of all fields.
fn fields(m: Machine, frames: u16) -> [u16; 56]
    requires { 1 ≤ frames }
    ensures { result ≡ fields_of m frames }
{
    let first = first_fields(m, frames);
    let ds = m.ds;
    let mut v = [0u16; 56];
    pack::copy_into(&mut v, 0, &first);
    pack::copy_into(&mut v, 23, &ds);
    v
}

fn regs_of(v: [u16; 56]) -> Regs
    ensures { result ≡ regs_of v }
{
    Regs {
        af: v[2],
        bc: v[3],
        de: v[4],
        hl: v[5],
        af2: v[6],
        bc2: v[7],
        de2: v[8],
        hl2: v[9],
        ix: v[10],
        iy: v[11],
        pc: v[12],
        ssp: v[13],
        usp: v[14],
        bankaf: v[15] == 1,
        bankx: v[16] == 1,
    }
}

fn control_of(v: [u16; 56]) -> Control
    ensures { result ≡ control_of v }
{
    Control {
        msr: v[17],
        tcr: (v[18] % 256) as u8,
        iopage: (v[19] % 256) as u8,
        limit: v[20] % 4096 * 16,
        vector: v[21] % 4096 * 16,
    }
}

// The machine that field values and descriptors name.
fn machine_with(v: [u16; 56], ds: [u16; 32]) -> Machine
    ensures { result ≡ machine_with v ds }
{
    let r = regs_of(v);
    let c = control_of(v);
    Machine {
        regs: r,
        ctl: c,
        mmu: v[22],
        ds: ds,
    }
}

// The machine that field values name.
fn machine_of(v: [u16; 56]) -> Machine
    ensures { result ≡ machine_of v }
{
    let mut ds = [0u16; 32];
    pack::copy_into(&mut ds, 0, &v[23..55]);
    machine_with(v, ds)
}

// The form of m, with so many frames of memory, into the first bytes of out. Refused, it changes no byte.
pub fn write_form(m: Machine, frames: u16, out: &mut [u8]) -> Result<(), Refusal>
    ensures { (refused_by result ≡ write_refusal m frames (length out.old)) × (out.new ≡ written m frames out.old) }
{
    if frames < 1 {
        return Err(Refusal::MemoryLength);
    }
    if MOST_FRAMES < frames {
        return Err(Refusal::MemoryLength);
    }
    if !legal::allowed(m) {
        return Err(Refusal::ReservedBit);
    }
    if out.len() < LENGTH {
        return Err(Refusal::BufferLength);
    }
    let vs = fields(m, frames);
    pack::put_all(out, &WIDTHS, &vs);
    Ok(())
}

#[tactic(auto, unfolding(crate::specs::Form::refused))]
fn refuse(refusal: Refusal) -> Unread
    ensures { reading (Err result) ≡ refused (number_of refusal) }
{
    let machine = legal::reset();
    Unread {
        refusal,
        restored: Restored { machine, frames: 1 },
    }
}

// What a form with the field values v answers.
fn read_fields(v: [u16; 56]) -> Result<Restored, Unread>
    ensures { reading result ≡ read_fields v }
{
    if v[0] != VERSION {
        return Err(refuse(Refusal::Version));
    }
    if MOST_FRAMES <= v[1] {
        return Err(refuse(Refusal::FrameCount));
    }
    let machine = machine_of(v);
    if !legal::allowed(machine) {
        return Err(refuse(Refusal::ReservedBit));
    }
    if v[55] != 0 {
        return Err(refuse(Refusal::Padding));
    }
    Ok(Restored {
        machine,
        frames: v[1] + 1,
    })
}

// The machine and the frames that a form names.
pub fn read_form(s: &[u8]) -> Result<Restored, Unread>
    ensures { reading result ≡ read_form s.now }
{
    if s.len() != LENGTH {
        return Err(refuse(Refusal::BufferLength));
    }
    let mut v = [0u16; 56];
    pack::get_all(s, &WIDTHS, &mut v);
    read_fields(v)
}
