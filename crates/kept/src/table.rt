// The table of kept places: filled anew where mode, memory unit or descriptors have changed.
ghost use Rattle.std.specs.Prelude.{◌≡◌, true, ◌+◌, ◌%◌, ◌≤◌, ◌==◌, Ok, false, IfSome, length, get_or};
ghost use Rattle.mmu.specs.Translate.{mode_bits, translating, number_of, translate};
ghost use Rattle.kept.specs.Kept.{Right, Inside, Entered};

use mmu::Mode;

// The page's first byte, where the whole page lies in memory.
fn base_of(p: u64, size: usize) -> Option<u32>
    ensures { IfSome result (λ e. (e ≡ p) × (e + 4096 ≤ size)) }
{
    let e = u32::try_from(p).ok()?;
    let fits = e as usize + 4096 <= size;
    if fits { Some(e) } else { None }
}

fn based(mode: Mode, ds: &[u16; 32], size: usize, program: bool, write: bool, a: u16) -> Option<u32>
    ensures { IfSome result (λ e. (translate mode.control mode.user ds.now program write a ≡ Ok e) × (e + 4096 ≤ size)) }
{
    let p = mode.translate(ds, program, write, a).ok()?;
    base_of(p, size)
}

fn is_marked(mode: Mode, ds: &[u16; 32], a: u16) -> bool
    ensures { result ≡ (get_or ds.now (number_of (mode_bits mode.control mode.user) mode.user false a) 0 % 2 == 1) }
{
    let i = mode.number_of(false, a) as usize;
    ds[i] % 2 == 1
}

// A write's base is kept where its page is marked or nothing is translated: so a write by it changes no descriptor.
fn write_base(mode: Mode, ds: &[u16; 32], size: usize, a: u16) -> Option<u32>
    ensures at { IfSome result (λ e. (translate mode.control mode.user ds.now false true a ≡ Ok e) × (e + 4096 ≤ size)) }
    ensures marked { IfSome result (λ e. translating (mode_bits mode.control mode.user) ≡ true → get_or ds.now (number_of (mode_bits mode.control mode.user) mode.user false a) 0 % 2 ≡ 1) }
{
    let changes = mode.translates() && !is_marked(mode, ds, a);
    if changes {
        return None;
    }
    based(mode, ds, size, false, true, a)
}

fn entry(mode: Mode, ds: &[u16; 32], size: usize, k: u8) -> Option<u32>
    ensures { IfSome result (λ e. Entered mode.user mode.control ds.now size k e) }
{
    let a = u16::from(k % 16) * 4096;
    let writes = k / 16 == 2;
    if writes {
        return write_base(mode, ds, size, a);
    }
    let program = k / 16 == 1;
    based(mode, ds, size, program, false, a)
}

// An entry 1 begins no page: nothing is kept there.
pub fn fill(mode: Mode, ds: &[u16; 32], size: usize, kept: &mut [u32; 48])
    ensures right { Right kept.new mode.user mode.control ds.now }
    ensures inside { Inside kept.new size }
    ensures kept_len_2 { length kept.new ≡ 48 }
{
    for k in 0..48u8 {
        kept[usize::from(k)] = entry(mode, ds, size, k).unwrap_or(1);
    }
}
