// The 16 bit load and exchange group: what each instruction makes of the registers, whose PC is past it already, and of its operand.
#![tactic(auto, unfolding(crate::specs::Exchange::ex_de_hl, crate::specs::Exchange::ex_xy_hl, crate::specs::Exchange::ex_sp, crate::specs::Exchange::ex_af, crate::specs::Exchange::exx_of, crate::specs::Word::ld_xx_m, crate::specs::Word::ld_m_xx, crate::specs::Word::ld_rr_nn, crate::specs::Word::ld_rr_m, crate::specs::Word::ld_m_rr, crate::specs::Word::ldw_m_nn, crate::specs::Word::ld_sp_xx, crate::specs::Word::lda_of, crate::specs::Stack::pop_rr, crate::specs::Stack::pop_spot, crate::specs::Stack::pop_m, crate::specs::Stack::push_rr, crate::specs::Stack::push_nn, crate::specs::Stack::push_m))]

pub mod exchange;
pub mod stack;
pub mod word;
