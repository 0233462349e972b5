// The entries of the decode tables that have quick steps, in the order of their operations. HL, BC, DE, SX and DA say where the operand lies.
pub const BIT_R: u16 = 45568;

pub const BIT_HL: u16 = 46216;

pub const BIT_SX: u16 = 46232;

pub const RES_R: u16 = 46592;

pub const RES_HL: u16 = 47240;

pub const RES_SX: u16 = 47256;

pub const ROT_R: u16 = 47616;

pub const ROT_HL: u16 = 48264;

pub const ROT_SX: u16 = 48280;

pub const ROT_A: u16 = 48640;

pub const SET_R: u16 = 49152;

pub const SET_HL: u16 = 49800;

pub const SET_SX: u16 = 49816;
