// Accesses by kept places. Where nothing is kept they change nothing and are none; so is a word over a page's border.
ghost use Rattle.std.specs.Prelude.{◌≡◌, false, ◌+◌, ◌/◌, ◌≤◌, length, IfSome, IfNone};
ghost use Rattle.bus.specs.Leave.{one_write, two_writes};
ghost use Rattle.kept.specs.Kept.{Inside, Lies, Reads, Writes};

// The place of the first of n bytes at a, by the seats from `first` on.
// An entry 1, which begins no page, stands for none, as specs/Kept.antt has it: 48 of Option<u32> would take twice the bytes in the run's loop.
#[inline(always)]
pub fn place_of(kept: &[u32; 48], first: u16, a: u16, n: u16) -> Option<usize>
    requires first_in { first ≤ 32 }
    requires n_in { n ≤ 4096 }
    ensures { IfSome result (λ p. Lies kept.now (first + a / 4096) a n p) }
{
    let e = kept[(first + a / 4096) as usize];
    if (e == 1) | (a % 4096 + n > 4096) {
        return None;
    }
    Some(e as usize + (a % 4096) as usize)
}

// The byte at a by data. A byte and a word are functions of their own: a count would be tested where it is known.
#[inline(always)]
pub fn byte_at(kept: &[u32; 48], w: &[u8], a: u16) -> Option<u32>
    requires { Inside kept.now (length w.now) }
    ensures { IfSome result (λ v. Reads kept.now w.now 1 a v) }
{
    let p = place_of(kept, 0, a, 1)?;
    Some(w[p] as u32)
}

// The word at a by data, in one page.
#[inline(always)]
pub fn word_at(kept: &[u32; 48], w: &[u8], a: u16) -> Option<u32>
    requires { Inside kept.now (length w.now) }
    ensures { IfSome result (λ v. Reads kept.now w.now 2 a v) }
{
    let p = place_of(kept, 0, a, 2)?;
    Some(w[p] as u32 + w[p + 1] as u32 * 256)
}

// A byte to a by data.
#[inline(always)]
pub fn put_one(kept: &[u32; 48], w: &mut [u8], a: u16, b: u8) -> Option<()>
    requires { Inside kept.now (length w.old) }
    ensures w_unchanged { IfNone result (w.new ≡ w.old) }
    ensures wrote { IfSome result (λ _. Writes kept.now (one_write false a b) w.old w.new) }
{
    let p = place_of(kept, 32, a, 1)?;
    w[p] = b;
    Some(())
}

// A word to a by data, in one page.
#[inline(always)]
pub fn put_two(kept: &[u32; 48], w: &mut [u8], a: u16, v: u16) -> Option<()>
    requires { Inside kept.now (length w.old) }
    ensures w_unchanged { IfNone result (w.new ≡ w.old) }
    ensures wrote { IfSome result (λ _. Writes kept.now (two_writes false a v) w.old w.new) }
{
    let p = place_of(kept, 32, a, 2)?;
    w[p] = (v % 256) as u8;
    w[p + 1] = (v / 256) as u8;
    Some(())
}
