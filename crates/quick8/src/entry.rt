// The entries of the decode tables that have quick steps, in the order of their operations. HL, BC, DE, SX and DA say where the operand lies.
pub const LD_A_DA: u16 = 13970;

pub const LD_A_BC: u16 = 14048;

pub const LD_A_DE: u16 = 14056;

pub const LD_DA_A: u16 = 14354;

pub const LD_BC_A: u16 = 14432;

pub const LD_DE_A: u16 = 14440;

pub const LD_R_N: u16 = 14849;

pub const LD_HL_N: u16 = 15369;

pub const LD_SX_N: u16 = 15386;

pub const LD_R_R: u16 = 15872;

pub const LD_R_HL: u16 = 16520;

pub const LD_R_SX: u16 = 16537;

pub const LD_HL_R: u16 = 16904;

pub const LD_SX_R: u16 = 16921;

pub const ALU_R: u16 = 30720;

pub const ALU_N: u16 = 31233;

pub const ALU_HL: u16 = 31880;

pub const ALU_SX: u16 = 31897;

pub const CPL: u16 = 32256;

pub const DEC_R: u16 = 32768;

pub const DEC_HL: u16 = 33416;

pub const DEC_SX: u16 = 33433;

pub const INC_R: u16 = 34304;

pub const INC_HL: u16 = 34952;

pub const INC_SX: u16 = 34969;

pub const NEG_A: u16 = 36864;
