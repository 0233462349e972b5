// Where the memory operand is: the addressing modes of chapter 4 by number, named as in specs/Mode.antt; numbers as operations are (op).

// No memory operand.
pub const NO: u8 = 0;

// (HL).
pub const IR: u8 = 1;

// (nn).
pub const DA: u8 = 2;

// (IX+d) or (IY+d), 8 bit d, by the opening.
pub const SX: u8 = 3;

// (IX+dd).
pub const X_IX: u8 = 4;

// (IY+dd).
pub const X_IY: u8 = 5;

// (HL+dd).
pub const X_HL: u8 = 6;

// <addr>, relative to PC.
pub const RA: u8 = 7;

// (SP+dd).
pub const SR: u8 = 8;

// (HL+IX).
pub const BX_HL_IX: u8 = 9;

// (HL+IY).
pub const BX_HL_IY: u8 = 10;

// (IX+IY).
pub const BX_IX_IY: u8 = 11;

// (BC).
pub const AT_BC: u8 = 12;

// (DE).
pub const AT_DE: u8 = 13;

// (SP), the top of the stack.
pub const AT_SP: u8 = 14;

// (SP) where the condition of the operation code holds; else nothing is read.
pub const AT_SP_CC: u8 = 15;
