// The first byte of a command, which tells its kind.
pub(crate) const LOAD: u8 = 1;

pub(crate) const GIVE: u8 = 2;

pub(crate) const FORWARD: u8 = 3;

pub(crate) const BACK: u8 = 4;

pub(crate) const RUN: u8 = 5;

pub(crate) const RERUN: u8 = 6;

pub(crate) const CHANGER: u8 = 7;

pub(crate) const BREAK: u8 = 8;

pub(crate) const DROP: u8 = 9;

pub(crate) const WHERE: u8 = 10;

pub(crate) const REGISTERS: u8 = 11;

pub(crate) const WORDS: u8 = 12;

pub(crate) const OUTS: u8 = 13;
