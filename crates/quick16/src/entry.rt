// The entries of the decode tables that have quick steps, in the order of their operations. HL, BC, DE, SX and DA say where the operand lies.
pub const EX_DE_HL: u16 = 17408;

pub const EX_SP: u16 = 18800;

pub const LD_XX_DA: u16 = 20242;

pub const LD_DA_XX: u16 = 20498;

pub const LD_RR_NN: u16 = 20994;

pub const LD_RR_DA: u16 = 21778;

pub const LD_DA_RR: u16 = 22034;

pub const LD_SP_XX: u16 = 23040;

pub const POP_RR: u16 = 24432;

pub const PUSH_RR: u16 = 25088;

pub const LDI: u16 = 29832;

pub const LDIR: u16 = 30344;

pub const ADC_XX_RR: u16 = 37376;

pub const ADD_XX_RR: u16 = 37888;

pub const DECW_RR: u16 = 40448;

pub const INCW_RR: u16 = 41984;

pub const SBC_XX_RR: u16 = 45056;

pub const CALL: u16 = 51218;

pub const CALL_CC: u16 = 51730;

pub const CCF: u16 = 52224;

pub const DJNZ: u16 = 52737;

pub const JP: u16 = 54290;

pub const JP_CC: u16 = 54802;

pub const JP_XX: u16 = 55296;

pub const JR: u16 = 55809;

pub const JR_CC: u16 = 56321;

pub const RET: u16 = 57200;

pub const RET_CC: u16 = 57720;

pub const RST: u16 = 57856;

pub const SCF: u16 = 58368;

pub const NOP: u16 = 58880;
