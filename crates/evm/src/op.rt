// The instructions that more than one place asks for by name.
pub const STOP: u8 = 0x00;

pub const ADD: u8 = 0x01;

pub const AND: u8 = 0x16;

pub const JUMP: u8 = 0x56;

pub const JUMPI: u8 = 0x57;

pub const PC: u8 = 0x58;

pub const JUMPDEST: u8 = 0x5b;

pub const PUSH0: u8 = 0x5f;

pub const PUSH1: u8 = 0x60;

pub const PUSH4: u8 = 0x63;

pub const DUP1: u8 = 0x80;

pub const DUP16: u8 = 0x8f;

pub const SWAP1: u8 = 0x90;

pub const SWAP16: u8 = 0x9f;

pub const RETURN: u8 = 0xf3;

pub const REVERT: u8 = 0xfd;

pub const INVALID: u8 = 0xfe;

pub const SELFDESTRUCT: u8 = 0xff;
