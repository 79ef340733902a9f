// The first byte of an instruction, which tells its kind.
pub(crate) const LOAD: u8 = 0;

pub(crate) const COPY: u8 = 1;

pub(crate) const RECKON: u8 = 2;

pub(crate) const READ: u8 = 3;

pub(crate) const WRITE: u8 = 4;

pub(crate) const JUMP: u8 = 5;

pub(crate) const JUMP_IF: u8 = 6;

pub(crate) const CALL: u8 = 7;

pub(crate) const RETURN: u8 = 8;

pub(crate) const IN: u8 = 9;

pub(crate) const OUT: u8 = 10;

pub(crate) const HALT: u8 = 11;
