// Instructions written as bytes.
ghost use Rattle.std.specs.Prelude.{◌≡◌};
ghost use Rattle.command.specs.Plain.{instr_spelled};
ghost use Rattle.command.specs.Codes.{code};
ghost use Rattle.command.specs.Written.{Puts};

use crate::byte::Byte;
use crate::code::Instr;
use crate::instruction_kinds::{
    CALL, COPY, HALT, IN, JUMP, JUMP_IF, LOAD, OUT, READ, RECKON, RETURN, WRITE,
};
use crate::writing::parts::{put, put_with};
use std::alloc::AllocError;

pub(crate) fn put_instr<B: Byte>(out: &mut Vec<B>, instr: Instr) -> Result<(), AllocError>
    ensures { Puts (B.text out.old.items) (instr_spelled (code instr)) result (B.text out.new.items) }
{
    match instr {
        Instr::Load(to, number) => put_with(out, &[LOAD, to.number], u64::from(number)),
        Instr::Copied(to, from) => put(out, &[COPY, to.number, from.number]),
        Instr::Reckon(op, to, by) => put(out, &[RECKON, u8::from(op), to.number, by.number]),
        Instr::Read(to, base, offset) => put_with(
            out,
            &[READ, to.number, base.number],
            u64::from(offset),
        ),
        Instr::Write(from, base, offset) => put_with(
            out,
            &[WRITE, from.number, base.number],
            u64::from(offset),
        ),
        Instr::Jump(place) => put_with(out, &[JUMP], u64::from(place)),
        Instr::JumpIf(comparison, first, second, place) => put_with(
            out,
            &[JUMP_IF, u8::from(comparison), first.number, second.number],
            u64::from(place),
        ),
        Instr::Call(place) => put_with(out, &[CALL], u64::from(place)),
        Instr::Return => put(out, &[RETURN]),
        Instr::In(to) => put(out, &[IN, to.number]),
        Instr::Out(from) => put(out, &[OUT, from.number]),
        Instr::Halt => put(out, &[HALT]),
    }
}
