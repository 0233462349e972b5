// What quick steps leave.
use regs::Regs;

// The registers after so many steps.
#[derive(Clone, Copy)]
pub struct Quick {
    pub regs: Regs,
    pub steps: u16,
}
