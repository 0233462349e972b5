// Where the bytes of the words pushed go.
ghost use Rattle.std.specs.Prelude.{◌≡◌, ◌<◌, ◌^◌};
ghost use Rattle.saves.specs.Words.{word_for, words_for};

use crate::pushing::Word;
use bus::read::next_of;
use bus::store::room_for;
use mmu::Mode;
use plan::kinds::plus16;

// A word that is pushed at `at`, with the places of its bytes: system mode, data, writes.
#[tactic(auto, unfolding(crate::specs::Words::word_for, crate::specs::Words::both_places))]
fn word_for(control: u16, ds: &[u16; 32], size: usize, at: u16, value: u16) -> Option<Word>
    ensures { result ≡ word_for control ds.now size at value }
{
    let mode = Mode::of(control, false);
    let low = room_for(mode, ds, size, false, at).ok()?;
    let high = room_for(mode, ds, size, false, next_of(at)).ok()?;
    Some(Word {
        at,
        low,
        high,
        value,
    })
}

// The words that are pushed from sp down, if each has its places.
pub fn words_for<const N: usize>(
    control: u16,
    ds: &[u16; 32],
    size: usize,
    sp: u16,
    values: [u16; N],
) -> Option<[Word; N]>
    requires { N < 2 ^ 32 }
    ensures { result ≡ words_for control ds.now size sp values.entry }
{
    let mut xs = [Word::UNPLACED; N];
    let mut at = sp;
    for i in 0..N {
        at = plus16(at, 65534);
        xs[i] = word_for(control, ds, size, at, values[i])?;
    }
    Some(xs)
}
