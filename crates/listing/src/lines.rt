// One line of a listing.
ghost use Rattle.std.specs.Prelude.{◌≡◌, Some};
ghost use Rattle.command.specs.Codes.{code, codes};
ghost use Rattle.assembler.specs.Instructions.{labels_of};
ghost use Rattle.listing.specs.Lines.{named_text, arrow, indent, line_text};

use crate::branches::Origins;
use crate::columns::{Blanks, width};
use crate::labels::{Headings, Place};
use assembler::{Label, Listed, comparison_name};
use command::code::Instr;
use std::fmt;

// An instruction, with labels for the places that it names.
#[derive(Clone, Copy)]
struct Named<'a> {
    labels: &'a [Label],
    instr: Instr,
}

impl<'a> Named<'a> {
    fn place(&self, number: u16) -> Place<'a>
        ensures { (result.labels ≡ self.now.labels) × (result.number ≡ number) }
    {
        Place {
            labels: self.labels,
            number: usize::from(number),
        }
    }
}

impl fmt::Display for Named<'_> {
    ghost output = { λ n. Some (named_text (labels_of n.labels.now) (code n.instr)) };

    fn fmt<W: fmt::Write>(&self, f: &mut fmt::Formatter<W>) -> fmt::Result {
        match self.instr {
            Instr::Jump(to) => write!(f, "jump {}", self.place(to)),
            Instr::JumpIf(comparison, first, second, to) => write!(
                f,
                "jump {} {}, {}, {}",
                comparison_name(comparison),
                first.number,
                second.number,
                self.place(to)
            ),
            Instr::Call(to) => write!(f, "call {}", self.place(to)),
            instr => write!(f, "{}", Listed(instr)),
        }
    }
}

// What stands before a number so that numbers of up to four digits end in one column.
fn indent(number: usize) -> &'static str
    ensures { result.now ≡ indent number }
{
    match number {
        0..=9 => "   ",
        10..=99 => "  ",
        100..=999 => " ",
        _ => "",
    }
}

fn arrow(here: bool) -> &'static str
    ensures { result.now ≡ arrow here }
{
    if here { "->" } else { "  " }
}

// The line of a place, below its labels. Program and labels side by side: what is shown of labels alone has no program.
#[derive(Clone, Copy)]
pub(crate) struct Line<'a> {
    pub program: &'a [Instr],
    pub labels: &'a [Label],
    pub place: usize,
    pub instr: Instr,
    // The processor is there.
    pub here: bool,
}

impl fmt::Display for Line<'_> {
    ghost output = { λ l. Some (line_text (codes l.program.now) (labels_of l.labels.now) l.here l.place (code l.instr)) };

    fn fmt<W: fmt::Write>(&self, f: &mut fmt::Formatter<W>) -> fmt::Result {
        let place = self.place;
        let headings = Headings {
            labels: self.labels,
            place,
        };
        let named = Named {
            labels: self.labels,
            instr: self.instr,
        };
        let origins = Origins {
            program: self.program,
            place,
            gap: Blanks::behind(width(&named)?),
        };
        let arrow = arrow(self.here);
        let indent = indent(place);
        write!(f, "{headings}{arrow} {indent}{place}  {named}{origins}\n")
    }
}
