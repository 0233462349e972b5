// The operations by number, named as in specs/Op.antt. They are no enum: an entry holds the number in seven bits, and the definitions of
// what an operation does are a list in the order of the numbers; a conversion would be a match of all 115 before the match that chooses.
pub const LEFT_OUT: u8 = 1;

pub const EXTENDED: u8 = 2;

pub const OPENS: u8 = 3;

pub const HALT: u8 = 4;

pub const SC: u8 = 5;

pub const IN_N: u8 = 6;

pub const OUT_N: u8 = 7;

pub const IN_C: u8 = 8;

pub const OUT_C: u8 = 9;

pub const IN_BLOCK: u8 = 10;

pub const OUT_BLOCK: u8 = 11;

pub const DI: u8 = 16;

pub const EI: u8 = 17;

pub const DI_N: u8 = 18;

pub const EI_N: u8 = 19;

pub const LDCTL_XX_C: u8 = 20;

pub const LDCTL_C_XX: u8 = 21;

pub const LDCTL_USP: u8 = 22;

pub const RETIL: u8 = 23;

pub const EX_A_R: u8 = 24;

pub const EX_A_M: u8 = 25;

pub const EX_H_L: u8 = 26;

pub const LD_A_M: u8 = 27;

pub const LD_M_A: u8 = 28;

pub const LD_R_N: u8 = 29;

pub const LD_M_N: u8 = 30;

pub const LD_R_R: u8 = 31;

pub const LD_R_M: u8 = 32;

pub const LD_M_R: u8 = 33;

pub const EX_DE_HL: u8 = 34;

pub const EX_XY_HL: u8 = 35;

pub const EX_SP: u8 = 36;

pub const EX_AF: u8 = 37;

pub const EXX: u8 = 38;

pub const LD_XX_M: u8 = 39;

pub const LD_M_XX: u8 = 40;

pub const LD_RR_NN: u8 = 41;

pub const LD_RR_M: u8 = 42;

pub const LD_M_RR: u8 = 43;

pub const LDW_M_NN: u8 = 44;

pub const LD_SP_XX: u8 = 45;

pub const LDA: u8 = 46;

pub const POP_RR: u8 = 47;

pub const POP_M: u8 = 48;

pub const PUSH_RR: u8 = 49;

pub const PUSH_NN: u8 = 50;

pub const PUSH_M: u8 = 51;

pub const CPD: u8 = 52;

pub const CPDR: u8 = 53;

pub const CPI: u8 = 54;

pub const CPIR: u8 = 55;

pub const LDD: u8 = 56;

pub const LDDR: u8 = 57;

pub const LDI: u8 = 58;

pub const LDIR: u8 = 59;

pub const ALU_R: u8 = 60;

pub const ALU_N: u8 = 61;

pub const ALU_M: u8 = 62;

pub const CPL: u8 = 63;

pub const DEC_R: u8 = 64;

pub const DEC_M: u8 = 65;

pub const EXTS_A: u8 = 66;

pub const INC_R: u8 = 67;

pub const INC_M: u8 = 68;

pub const MULT_R: u8 = 69;

pub const MULT_N: u8 = 70;

pub const MULT_M: u8 = 71;

pub const NEG_A: u8 = 72;

pub const ADC_XX_RR: u8 = 73;

pub const ADD_XX_RR: u8 = 74;

pub const ADD_XX_A: u8 = 75;

pub const ALUW_RR: u8 = 76;

pub const ALUW_NN: u8 = 77;

pub const ALUW_M: u8 = 78;

pub const DECW_RR: u8 = 79;

pub const DECW_M: u8 = 80;

pub const EXTS_HL: u8 = 81;

pub const INCW_RR: u8 = 82;

pub const INCW_M: u8 = 83;

pub const MULTW_RR: u8 = 84;

pub const MULTW_NN: u8 = 85;

pub const MULTW_M: u8 = 86;

pub const NEG_HL: u8 = 87;

pub const SBC_XX_RR: u8 = 88;

pub const BIT_R: u8 = 89;

pub const BIT_M: u8 = 90;

pub const RES_R: u8 = 91;

pub const RES_M: u8 = 92;

pub const ROT_R: u8 = 93;

pub const ROT_M: u8 = 94;

pub const ROT_A: u8 = 95;

pub const SET_R: u8 = 96;

pub const SET_M: u8 = 97;

pub const TSET_R: u8 = 98;

pub const TSET_M: u8 = 99;

pub const CALL: u8 = 100;

pub const CALL_CC: u8 = 101;

pub const CCF: u8 = 102;

pub const DJNZ: u8 = 103;

pub const JAF: u8 = 104;

pub const JAR: u8 = 105;

pub const JP: u8 = 106;

pub const JP_CC: u8 = 107;

pub const JP_XX: u8 = 108;

pub const JR: u8 = 109;

pub const JR_CC: u8 = 110;

pub const RET: u8 = 111;

pub const RET_CC: u8 = 112;

pub const RST: u8 = 113;

pub const SCF: u8 = 114;

pub const NOP: u8 = 115;
