// The work of an operation, by its number. A match for each group of the manual, each in the last arm of the one before it: the compiler
// makes one flat match of them, which can be drawn into the run's loop, and each is proved by itself. A table of functions is no plainer, and
// what a pointer calls can't be drawn in.
// The four that have to do with the alternate registers stand apart: EX AF,AF' and EXX, so that those registers never change in that
// loop, and JAF and JAR, so that the bank bits aren't looked at there.
#![tactic(auto, unfolding(crate::specs::Tried::tried_of, crate::specs::Tried::tried_by, crate::specs::Tried::swaps, crate::specs::Execute::execute_by))]

ghost use Rattle.std.specs.Prelude.{◌≡◌, ◌≤◌, Bool, true, ℕ};
ghost use Rattle.plan.specs.declared.kinds.Spot.{Spot};
ghost use Rattle.plan.specs.Kinds.{quiet};
ghost use Rattle.execute.specs.Execute.{execute_of};
ghost use Rattle.execute.specs.Tried.{swaps, tried_of};

use decode::op;
use plan::kinds::{Done, Ins, Spot, still};
use regs::Regs;

fn controls(r: Regs, u: bool, i: Ins, s: Spot, v: u32) -> Option<Done>
    ensures { 100 ≤ i.op → result ≡ tried_of r u i s v }
{
    match i.op {
        op::CALL => Some(jump::call(r, u, i, s)),
        op::CALL_CC => Some(jump::call_cc(r, u, i, s)),
        op::CCF => Some(jump::ccf(r)),
        op::DJNZ => Some(jump::djnz(r, i)),
        op::JAF => None,
        op::JAR => None,
        op::JP => Some(jump::jp(r, s)),
        op::JP_CC => Some(jump::jp_cc(r, i, s)),
        op::JP_XX => Some(jump::jp_xx(r, i)),
        op::JR => Some(jump::jr(r, i)),
        op::JR_CC => Some(jump::jr_cc(r, i)),
        op::RET => Some(jump::ret(r, u, v)),
        op::RET_CC => Some(jump::ret_cc(r, u, i, v)),
        op::RST => Some(jump::rst(r, u, i)),
        op::SCF => Some(jump::scf(r)),
        op::NOP => Some(jump::nop(r)),
        _ => Some(still(r)),
    }
}

fn singles(r: Regs, u: bool, i: Ins, s: Spot, v: u32) -> Option<Done>
    ensures { 89 ≤ i.op → result ≡ tried_of r u i s v }
{
    match i.op {
        op::BIT_R => Some(bits::bit_r(r, i)),
        op::BIT_M => Some(bits::bit_m(r, i, v)),
        op::RES_R => Some(bits::res_r(r, i)),
        op::RES_M => Some(bits::res_m(r, i, s, v)),
        op::ROT_R => Some(bits::rot_r(r, i)),
        op::ROT_M => Some(bits::rot_m(r, i, s, v)),
        op::ROT_A => Some(bits::rot_a(r, i)),
        op::SET_R => Some(bits::set_r(r, i)),
        op::SET_M => Some(bits::set_m(r, i, s, v)),
        op::TSET_R => Some(bits::tset_r(r, i)),
        op::TSET_M => Some(bits::tset_m(r, s, v)),
        _ => controls(r, u, i, s, v),
    }
}

fn wides(r: Regs, u: bool, i: Ins, s: Spot, v: u32) -> Option<Done>
    ensures { 73 ≤ i.op → result ≡ tried_of r u i s v }
{
    match i.op {
        op::ADC_XX_RR => Some(arith16::adc_xx_rr(r, u, i)),
        op::ADD_XX_RR => Some(arith16::add_xx_rr(r, u, i)),
        op::ADD_XX_A => Some(arith16::add_xx_a(r, i)),
        op::ALUW_RR => Some(arith16::aluw_rr(r, u, i)),
        op::ALUW_NN => Some(arith16::aluw_nn(r, i)),
        op::ALUW_M => Some(arith16::aluw_m(r, i, v)),
        op::DECW_RR => Some(arith16::decw_rr(r, u, i)),
        op::DECW_M => Some(arith16::decw_m(r, s, v)),
        op::EXTS_HL => Some(arith16::exts_hl(r)),
        op::INCW_RR => Some(arith16::incw_rr(r, u, i)),
        op::INCW_M => Some(arith16::incw_m(r, s, v)),
        op::MULTW_RR => Some(arith16::multw_rr(r, u, i)),
        op::MULTW_NN => Some(arith16::multw_nn(r, i)),
        op::MULTW_M => Some(arith16::multw_m(r, i, v)),
        op::NEG_HL => Some(arith16::neg_hl(r)),
        op::SBC_XX_RR => Some(arith16::sbc_xx_rr(r, u, i)),
        _ => singles(r, u, i, s, v),
    }
}

fn sums(r: Regs, u: bool, i: Ins, s: Spot, v: u32) -> Option<Done>
    ensures { 60 ≤ i.op → result ≡ tried_of r u i s v }
{
    match i.op {
        op::ALU_R => Some(arith8::alu_r(r, i)),
        op::ALU_N => Some(arith8::alu_n(r, i)),
        op::ALU_M => Some(arith8::alu_m(r, i, v)),
        op::CPL => Some(arith8::cpl(r)),
        op::DEC_R => Some(arith8::dec_r(r, i)),
        op::DEC_M => Some(arith8::dec_m(r, s, v)),
        op::EXTS_A => Some(arith8::exts_a(r)),
        op::INC_R => Some(arith8::inc_r(r, i)),
        op::INC_M => Some(arith8::inc_m(r, s, v)),
        op::MULT_R => Some(arith8::mult_r(r, i)),
        op::MULT_N => Some(arith8::mult_n(r, i)),
        op::MULT_M => Some(arith8::mult_m(r, i, v)),
        op::NEG_A => Some(arith8::neg_a(r)),
        _ => wides(r, u, i, s, v),
    }
}

fn moves(r: Regs, u: bool, i: Ins, s: Spot, v: u32) -> Option<Done>
    ensures { 52 ≤ i.op → result ≡ tried_of r u i s v }
{
    match i.op {
        op::CPD => Some(block::cpd(r, v)),
        op::CPDR => Some(block::cpdr(r, i, v)),
        op::CPI => Some(block::cpi(r, v)),
        op::CPIR => Some(block::cpir(r, i, v)),
        op::LDD => Some(block::ldd(r, v)),
        op::LDDR => Some(block::lddr(r, i, v)),
        op::LDI => Some(block::ldi(r, v)),
        op::LDIR => Some(block::ldir(r, i, v)),
        _ => sums(r, u, i, s, v),
    }
}

fn words(r: Regs, u: bool, i: Ins, s: Spot, v: u32) -> Option<Done>
    ensures { 34 ≤ i.op → result ≡ tried_of r u i s v }
{
    match i.op {
        op::EX_DE_HL => Some(load16::exchange::ex_de_hl(r)),
        op::EX_XY_HL => Some(load16::exchange::ex_xy_hl(r, i)),
        op::EX_SP => Some(load16::exchange::ex_sp(r, i, s, v)),
        op::EX_AF => None,
        op::EXX => None,
        op::LD_XX_M => Some(load16::word::ld_xx_m(r, i, v)),
        op::LD_M_XX => Some(load16::word::ld_m_xx(r, i, s)),
        op::LD_RR_NN => Some(load16::word::ld_rr_nn(r, u, i)),
        op::LD_RR_M => Some(load16::word::ld_rr_m(r, u, i, v)),
        op::LD_M_RR => Some(load16::word::ld_m_rr(r, u, i, s)),
        op::LDW_M_NN => Some(load16::word::ldw_m_nn(r, i, s)),
        op::LD_SP_XX => Some(load16::word::ld_sp_xx(r, u, i)),
        op::LDA => Some(load16::word::lda(r, i, s)),
        op::POP_RR => Some(load16::stack::pop_rr(r, u, i, v)),
        op::POP_M => Some(load16::stack::pop_m(r, u, i, v)),
        op::PUSH_RR => Some(load16::stack::push_rr(r, u, i)),
        op::PUSH_NN => Some(load16::stack::push_nn(r, u, i)),
        op::PUSH_M => Some(load16::stack::push_m(r, u, v)),
        _ => moves(r, u, i, s, v),
    }
}

fn bytes(r: Regs, u: bool, i: Ins, s: Spot, v: u32) -> Option<Done>
    ensures { 24 ≤ i.op → result ≡ tried_of r u i s v }
{
    match i.op {
        op::EX_A_R => Some(load8::ex_a_r(r, i)),
        op::EX_A_M => Some(load8::ex_a_m(r, s, v)),
        op::EX_H_L => Some(load8::ex_h_l(r)),
        op::LD_A_M => Some(load8::ld_a_m(r, v)),
        op::LD_M_A => Some(load8::ld_m_a(r, s)),
        op::LD_R_N => Some(load8::ld_r_n(r, i)),
        op::LD_M_N => Some(load8::ld_m_n(r, i, s)),
        op::LD_R_R => Some(load8::ld_r_r(r, i)),
        op::LD_R_M => Some(load8::ld_r_m(r, i, v)),
        op::LD_M_R => Some(load8::ld_m_r(r, i, s)),
        _ => words(r, u, i, s, v),
    }
}

// r is past the instruction; s is the operand's place and v what was read there. None: one of those four, which is left for `swap`.
pub fn execute(r: Regs, u: bool, i: Ins, s: Spot, v: u32) -> Option<Done>
    ensures { result ≡ tried_of r u i s v }
{
    if i.op < op::EX_A_R {
        return Some(still(r));
    }
    bytes(r, u, i, s, v)
}

fn regs_of(d: Done) -> Regs
    ensures { result ≡ d.regs }
{
    d.regs
}

// The registers after EX AF,AF', EXX, JAF or JAR, which write nothing.
pub fn swap(r: Regs, i: Ins) -> Regs
    ensures { swaps i.op ≡ true → (u : Bool) (s : Spot) (v : ℕ) → quiet result ≡ execute_of r u i s v }
{
    match i.op {
        op::EX_AF => regs_of(load16::exchange::ex_af(r)),
        op::EXX => regs_of(load16::exchange::exx(r)),
        op::JAF => regs_of(jump::jaf(r, i)),
        op::JAR => regs_of(jump::jar(r, i)),
        _ => r,
    }
}
