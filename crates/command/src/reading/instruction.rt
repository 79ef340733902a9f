// One instruction taken off the front of a text.
ghost use Rattle.std.specs.Prelude.{◌≡◌};
ghost use Rattle.command.specs.Codes.{code};
ghost use Rattle.command.specs.Reader.{one_of, instr_ways, instr};
ghost use Rattle.command.specs.Taken.{left_in, Takes};

use crate::byte::Byte;
use crate::code::Instr;
use crate::instruction_kinds::{
    CALL, COPY, HALT, IN, JUMP, JUMP_IF, LOAD, OUT, READ, RECKON, RETURN, WRITE,
};
use crate::reading::cursor::Cursor;

impl<B: Byte> Cursor<'_, B> {
    // What follows the first byte, by that byte.
    fn instr_of(&mut self, kind: u8) -> Option<Instr>
        ensures { Takes code (one_of instr_ways kind (left_in B.text self.old)) result (left_in B.text self.new) }
    {
        match kind {
            LOAD => Some(Instr::Load(self.register()?, self.word()?)),
            COPY => Some(Instr::Copied(self.register()?, self.register()?)),
            RECKON => Some(Instr::Reckon(self.op()?, self.register()?, self.register()?)),
            READ => Some(Instr::Read(self.register()?, self.register()?, self.place()?)),
            WRITE => Some(Instr::Write(self.register()?, self.register()?, self.place()?)),
            JUMP => Some(Instr::Jump(self.place()?)),
            JUMP_IF => Some(Instr::JumpIf(
                self.comparison()?,
                self.register()?,
                self.register()?,
                self.place()?,
            )),
            CALL => Some(Instr::Call(self.place()?)),
            RETURN => Some(Instr::Return),
            IN => Some(Instr::In(self.register()?)),
            OUT => Some(Instr::Out(self.register()?)),
            HALT => Some(Instr::Halt),
            _ => None,
        }
    }

    pub fn instr(&mut self) -> Option<Instr>
        ensures { Takes code (instr (left_in B.text self.old)) result (left_in B.text self.new) }
    {
        let kind = self.kind()?;
        self.instr_of(kind)
    }
}
