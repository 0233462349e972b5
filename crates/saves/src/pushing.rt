// Words pushed one after another: the bytes stored, the pages marked.
ghost use Rattle.std.specs.Prelude.{◌≡◌, ◌<◌, length};
ghost use Rattle.saves.specs.Words.{marking, storing, InMemory, all_marking, all_storing, last_at};

use bus::read::next_of;
use mmu::Mode;

// A word to be stored, its logical address, and the physical addresses of its bytes.
#[derive(Clone, Copy)]
pub struct Word {
    pub at: u16,
    pub low: u64,
    pub high: u64,
    pub value: u16,
}

impl Word {
    pub const UNPLACED: Word = Word {
        at: 0,
        low: 0,
        high: 0,
        value: 0,
    };
}

#[tactic(auto, unfolding(crate::specs::Words::marked_word, crate::specs::Words::stored_word))]
fn push(control: u16, ds: &mut [u16; 32], w: &mut [u8], x: Word)
    requires low_in_bounds { x.low < length w.old }
    requires high_in_bounds { x.high < length w.old }
    ensures ds_after { ds.new ≡ marking control x ds.old }
    ensures w_after { w.new ≡ storing x w.old }
{
    let [low, high] = x.value.to_le_bytes();
    w[x.low as usize] = low;
    w[x.high as usize] = high;
    let mode = Mode::of(control, false);
    mode.mark(ds, false, x.at);
    mode.mark(ds, false, next_of(x.at));
}

// Answers the stack pointer after them.
pub fn push_all(control: u16, ds: &mut [u16; 32], w: &mut [u8], sp: u16, xs: &[Word]) -> u16
    requires { InMemory (length w.old) xs.now }
    ensures sp_after { result ≡ last_at sp xs.now }
    ensures ds_after { ds.new ≡ all_marking control xs.now ds.old }
    ensures w_after { w.new ≡ all_storing xs.now w.old }
{
    let mut last = sp;
    for x in xs {
        push(control, ds, w, *x);
        last = x.at;
    }
    last
}
