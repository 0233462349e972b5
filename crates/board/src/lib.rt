// Why an access comes to nothing.
#![tactic(auto)]

ghost use Rattle.std.specs.Prelude.{◌≡◌};
ghost use Rattle.board.specs.declared.Fault.TheVariants as fault;

use mmu::Violated;

// Denied: the number of the violated descriptor. Lacks: the physical address where there is no memory.
#[derive(Clone, Copy, Debug, PartialEq, Eq)]
pub enum Fault {
    Denied(u8),
    Lacks(u64),
}

impl From<Violated> for Fault {
    ghost from_gives = { λ v e. e ≡ fault.Denied v.descriptor };

    fn from(v: Violated) -> Fault {
        Fault::Denied(v.descriptor)
    }
}
