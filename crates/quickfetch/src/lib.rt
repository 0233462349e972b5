// Stage 1 up to the operation code, by kept places: where the page isn't kept, or an instruction might leave it, nothing is known.
#![tactic(auto)]

ghost use Rattle.std.specs.Prelude.{◌≡◌, Bool, true, false, List, ℕ, ◌+◌, ◌≤◌, ltb, length, get_or, Some, IfSome};
ghost use Rattle.cpu.specs.Lead.{lead_third, lead_second, lead_first, lead_of};
ghost use Rattle.cpu.specs.Lead as lead;
ghost use Rattle.kept.specs.Kept.{Right, Inside};
ghost use Rattle.served.specs.Served.{Fetched, before};
ghost use Rattle.quickfetch.specs.Fetch.{IsSite, Leads};

use decode::Entries;
use kept::access::place_of;
use served::kinds::Code;

// Where an instruction stands: its address pc, and the place p of its first byte.
#[derive(Clone, Copy)]
struct Site<'a> {
    kept: &'a [u32; 48],
    w: &'a [u8],
    t: &'a Entries,
    pc: u16,
    p: usize,
    ghost is_site: { IsSite kept.now w.now pc p },
}

impl Site<'_> {
    #[inline(always)]
    fn byte(&self, j: u8) -> u8
        requires { j ≤ 4 }
        ensures { result ≡ get_or self.now.w.now (self.now.p + j) 0 }
    {
        self.w[self.p + j as usize]
    }

    // The code whose operation code b is the last of j bytes.
    #[inline(always)]
    fn code(&self, e: u16, o: u8, b: u8, j: u8) -> Option<Code>
        requires { j ≤ 4 }
        ensures { result ≡ Some (record { e = e; o = o; b = b; at = self.now.pc + j; p = self.now.p + j }) }
    {
        Some(Code {
            e,
            o,
            b,
            at: self.pc + j as u16,
            p: self.p + j as usize,
        })
    }

    fn fourth(&self, o: u8) -> Option<Code>
        requires o_value { ltb o 7 ≡ true }
        requires o_value_2 { ltb 4 o ≡ true }
        ensures { Leads self.now.kept.now self.now.w.now (λ user mmu ds. lead_third user mmu ds self.now.w.now (self.now.pc + 2) o) result }
    {
        let b = self.byte(3);
        self.code(self.t.entry(o, b), o, b, 4)
    }

    // A second byte that isn't an operation from 24 on: after DD and FD it may be CB, with a displacement before the operation code.
    fn third(&self, o: u8, b: u8) -> Option<Code>
        ensures { Leads self.now.kept.now self.now.w.now (λ user mmu ds. lead_second user mmu ds self.now.w.now (self.now.pc + 2) o b) result }
    {
        match decode::after_opening(o, b) {
            n @ (5 | 6) => self.fourth(n),
            _ => None,
        }
    }

    fn second(&self, o: u8, b: u8) -> Option<Code>
        requires { ltb 4 o ≡ false }
        ensures { Leads self.now.kept.now self.now.w.now (λ user mmu ds. lead_second user mmu ds self.now.w.now (self.now.pc + 2) o b) result }
    {
        let e = self.t.entry(o, b);
        if e < 12288 {
            return self.third(o, b);
        }
        self.code(e, o, b, 2)
    }

    fn opened(&self, b: u8) -> Option<Code>
        ensures { Leads self.now.kept.now self.now.w.now (λ user mmu ds. lead_first user mmu ds self.now.w.now (self.now.pc + 1) b) result }
    {
        let o = decode::opening_of(b);
        if o == 0 {
            return None;
        }
        self.second(o, self.byte(1))
    }

    // A byte whose entry is an operation from 24 on opens nothing: the usual case, by one test.
    fn first(&self) -> Option<Code>
        ensures { Leads self.now.kept.now self.now.w.now (λ user mmu ds. lead_of user mmu ds self.now.w.now self.now.pc) result }
    {
        let b = self.byte(0);
        let e = self.t.entry(0, b);
        if e < 12288 {
            return self.opened(b);
        }
        self.code(e, 0, b, 1)
    }
}

pub fn code_at(kept: &[u32; 48], w: &[u8], t: &Entries, pc: u16) -> Option<Code>
    requires inside { Inside kept.now (length w.now) }
    ensures fetched { IfSome result (λ q. Fetched kept.now w.now q) }
    ensures pc_value { IfSome result (λ q. (user : Bool) (mmu : ℕ) (ds : List ℕ) → Right kept.now user mmu ds → lead_of user mmu ds w.now pc ≡ lead.code q.o q.b (before q w.now) q.at) }
{
    let p = place_of(kept, 16, pc, 16)?;
    Site { kept, w, t, pc, p }.first()
}
