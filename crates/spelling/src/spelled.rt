// Programs as bytes: a count of eight bytes, and each instruction as the definitions spell it.
ghost use Rattle.std.specs.Prelude.{◌≡◌, length, ◌==◌, IfOk};
ghost use Rattle.command.specs.Codes.{codes};
ghost use Rattle.command.specs.Reader.{so_many, instr};
ghost use Rattle.command.specs.Taken.{left};
ghost use Rattle.command.specs.Written.{program_spelled};
ghost use Rattle.spelling.specs.declared.spelled.ReadError.TheVariants.{NoMemory};
ghost use Rattle.spelling.specs.Spelling.{TakesAll, Reads};

use command::code::Instr;
use command::reading::Cursor;
use command::writing;
use std::alloc::{AllocError, AllocFailed, Global};

// A program's spelling.
pub fn write_program(heap: Global, program: &[Instr]) -> Result<Vec<u8>, AllocError>
    ensures { IfOk result (λ v. v.items ≡ program_spelled (codes program.now)) }
{
    writing::write_program(heap, program)
}

#[derive(Clone, Copy, Debug, PartialEq, Eq)]
pub enum ReadError {
    // The bytes spell no program.
    NoProgram,
    NoMemory,
}

impl<T: Drop> From<AllocFailed<T>> for ReadError {
    ghost from_gives = { λ _ y. y ≡ NoMemory };

    fn from(_refused: AllocFailed<T>) -> ReadError {
        ReadError::NoMemory
    }
}

// So many instructions.
fn read_instrs(
    heap: Global,
    cursor: &mut Cursor<'_, u8>,
    count: u64,
) -> Result<Vec<Instr>, ReadError>
    ensures { TakesAll (so_many instr count (left cursor.old)) result (left cursor.new) }
{
    let mut program = Vec::new(heap);
    for _ in 0..count {
        let instr = cursor.instr().ok_or(ReadError::NoProgram)?;
        program.push(instr)?;
    }
    Ok(program)
}

// Whether nothing is left to read.
fn is_done(cursor: &Cursor<'_, u8>) -> bool
    ensures { result ≡ (length (left cursor.now) == 0) }
{
    cursor.rest.is_empty()
}

// The program that bytes spell, to the last of them.
pub fn read_program(heap: Global, bytes: &[u8]) -> Result<Vec<Instr>, ReadError>
    ensures { Reads bytes.now result }
{
    let mut cursor = Cursor { rest: bytes };
    let count = cursor.number().ok_or(ReadError::NoProgram)?;
    let program = read_instrs(heap, &mut cursor, count)?;
    if is_done(&cursor) {
        Ok(program)
    } else {
        Err(ReadError::NoProgram)
    }
}
