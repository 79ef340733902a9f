// Listings of whole programs, and of the lines around a place.
ghost use Rattle.std.specs.Prelude.{◌≡◌, length, Some, None};
ghost use Rattle.command.specs.Codes.{codes};
ghost use Rattle.assembler.specs.Instructions.{labels_of};
ghost use Rattle.listing.specs.Window.{first_line, past_last_line, in_window, is_at, lines_text};

use crate::lines::Line;
use assembler::Label;
use command::code::Instr;
use std::fmt;

// So many lines are shown before a place, and as many behind it.
const MARGIN: usize = 5;

// The lines of a program from one place up to another, each with its end.
#[derive(Clone, Copy)]
pub struct Listing<'a> {
    program: &'a [Instr],
    labels: &'a [Label],
    from: usize,
    to: usize,
    arrow: Option<usize>,
}

impl<'a> Listing<'a> {
    // All lines.
    pub fn whole(program: &'a [Instr], labels: &'a [Label]) -> Listing<'a>
        ensures program { result.program.now ≡ program.now }
        ensures labels { result.labels.now ≡ labels.now }
        ensures bounds { (result.from ≡ 0) × (result.to ≡ length program.now) }
        ensures arrow { result.arrow ≡ None }
    {
        Listing {
            program,
            labels,
            from: 0,
            to: program.len(),
            arrow: None,
        }
    }

    // The lines around a place; around the end of the program where the place is past it.
    pub fn around(program: &'a [Instr], labels: &'a [Label], place: usize) -> Listing<'a>
        ensures program { result.program.now ≡ program.now }
        ensures labels { result.labels.now ≡ labels.now }
        ensures first { result.from ≡ first_line (length program.now) place }
        ensures last { result.to ≡ past_last_line (length program.now) place }
        ensures arrow { result.arrow ≡ None }
    {
        let count = program.len();
        Listing {
            program,
            labels,
            from: place.min(count).saturating_sub(MARGIN),
            to: place.saturating_add(MARGIN + 1).min(count),
            arrow: None,
        }
    }

    // The same lines with an arrow at a place, which is where the processor is.
    pub fn with_arrow(self, place: usize) -> Listing<'a>
        ensures { result ≡ record { program = self.entry.program; labels = self.entry.labels; from = self.entry.from; to = self.entry.to; arrow = Some place } }
    {
        Listing {
            arrow: Some(place),
            ..self
        }
    }

    fn has(&self, place: usize) -> bool
        ensures { result ≡ in_window self.now.from self.now.to place }
    {
        self.from <= place && place < self.to
    }

    fn has_arrow(&self, place: usize) -> bool
        ensures { result ≡ is_at self.now.arrow place }
    {
        self.arrow == Some(place)
    }
}

impl fmt::Display for Listing<'_> {
    ghost output = { λ l. Some (lines_text (codes l.program.now) (labels_of l.labels.now) l.from l.to l.arrow) };

    fn fmt<W: fmt::Write>(&self, f: &mut fmt::Formatter<W>) -> fmt::Result {
        for (place, instr) in self.program.iter().enumerate() {
            if self.has(place) {
                let line = Line {
                    program: self.program,
                    labels: self.labels,
                    place,
                    instr: *instr,
                    here: self.has_arrow(place),
                };
                write!(f, "{line}")?;
            }
        }
        Ok(())
    }
}
