// Making a page valid: a host call.
#![tactic(auto)]

ghost use Rattle.std.specs.Prelude.{◌≡◌};
ghost use Rattle.valid.specs.Valid.{make_valid, made};

use legal::refusal::{Refusal, Refused};
use regs::Machine;

// Sets the valid bit of descriptor n. Refused, it hands the record back.
#[tactic(auto, using(crate::proofs::Descriptor::itself), unfolding(crate::specs::Valid::make_valid))]
pub fn make_valid(m: Machine, n: u8) -> Result<Machine, Refused>
    ensures { made result ≡ make_valid m n }
{
    if !legal::allowed(m) {
        return Err(Refusal::ReservedBit.beside(m));
    }
    if n >= 32 {
        return Err(Refusal::NoDescriptor.beside(m));
    }
    let mut ds = m.ds;
    let already = mmu::is_valid(&ds, n);
    if already {
        return Err(Refusal::AlreadyValid.beside(m));
    }
    mmu::make_valid(&mut ds, n);
    Ok(Machine { ds, ..m })
}
