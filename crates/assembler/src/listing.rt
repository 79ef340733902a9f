// Programs as text that can be assembled again.
ghost use Rattle.std.specs.Prelude.{◌≡◌, IfOk, Some, string_bytes};
ghost use Rattle.command.specs.Codes.{code, codes};
ghost use Rattle.assembler.specs.Again.{Loadable, Assembles, ListedBack, ListedOnce};
ghost use Rattle.assembler.specs.Listing.{instr_text, listing};

use crate::names::{comparison_name, op_name};
use command::code::Instr;
use std::alloc::{AllocError, Global};
use std::fmt;

// An instruction as it is listed.
#[derive(Clone, Copy)]
pub struct Listed(pub Instr);

impl fmt::Display for Listed {
    ghost output = { λ x. Some (instr_text (code x.0)) };

    fn fmt<W: fmt::Write>(&self, f: &mut fmt::Formatter<W>) -> fmt::Result {
        match self.0 {
            Instr::Load(to, number) => write!(f, "load {}, {number}", to.number),
            Instr::Copied(to, from) => write!(f, "copy {}, {}", to.number, from.number),
            Instr::Reckon(op, to, by) => write!(
                f,
                "reckon {} {}, {}",
                op_name(op),
                to.number,
                by.number
            ),
            Instr::Read(to, base, offset) => write!(
                f,
                "read {}, {}, {offset}",
                to.number, base.number
            ),
            Instr::Write(from, base, offset) => write!(
                f,
                "write {}, {}, {offset}",
                from.number, base.number
            ),
            Instr::Jump(place) => write!(f, "jump {place}"),
            Instr::JumpIf(comparison, first, second, place) => {
                write!(
                    f,
                    "jump {} {}, {}, {place}",
                    comparison_name(comparison),
                    first.number,
                    second.number
                )
            }
            Instr::Call(place) => write!(f, "call {place}"),
            Instr::Return => f.write_str("return"),
            Instr::In(to) => write!(f, "in {}", to.number),
            Instr::Out(from) => write!(f, "out {}", from.number),
            Instr::Halt => f.write_str("halt"),
        }
    }
}

// A line for each instruction: text that assembles to the same program.
pub fn disassemble(heap: Global, program: &[Instr]) -> Result<String, AllocError>
    ensures text { IfOk result (λ t. string_bytes t ≡ listing (codes program.now)) }
    ensures again { IfOk result (λ t. Loadable (codes program.now) → Assembles (string_bytes t) (codes program.now)) }
{
    let mut text = String::new(heap);
    for instr in program {
        let line = format!(in heap; "{}\n", Listed(*instr))?;
        text.push_str(line.as_str())?;
    }
    Ok(text)
}

// The theorem by itself: a listing assembles to what it lists, and no two programs have one listing.
fn listing_stands() -> u8
    ensures back { ListedBack }
    ensures once { ListedOnce }
{
    0
}
