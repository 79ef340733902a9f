// Branches: the places that instructions name, and the instructions that name a place.
ghost use Rattle.std.specs.Prelude.{◌≡◌, Some};
ghost use Rattle.command.specs.Codes.{code, codes};
ghost use Rattle.listing.specs.Branches.{branch_of, is_branch, has_branch, sources_text, origins_text};

use crate::columns::Blanks;
use command::code::Instr;
use std::fmt;

// Where an instruction may lead besides to the one behind it.
#[derive(Clone, Copy, Debug, PartialEq, Eq)]
pub(crate) enum Branch {
    Jump(usize),
    Call(usize),
}

// The place that an instruction names.
fn branch_of(instr: Instr) -> Option<Branch>
    ensures { result ≡ branch_of (code instr) }
{
    match instr {
        Instr::Jump(place) | Instr::JumpIf(_, _, _, place) => Some(Branch::Jump(usize::from(
            place,
        ))),
        Instr::Call(place) => Some(Branch::Call(usize::from(place))),
        _ => None,
    }
}

impl Branch {
    // An instruction is this branch.
    fn is_of(self, instr: Instr) -> bool
        ensures { result ≡ is_branch self (code instr) }
    {
        branch_of(instr) == Some(self)
    }
}

// The places of the instructions that are one branch, with commas between.
#[derive(Clone, Copy)]
struct Sources<'a> {
    program: &'a [Instr],
    branch: Branch,
}

impl Sources<'_> {
    fn any(&self) -> bool
        ensures { result ≡ has_branch self.now.branch (codes self.now.program.now) }
    {
        self.program.iter().any(|instr| self.branch.is_of(*instr))
    }
}

impl fmt::Display for Sources<'_> {
    ghost output = { λ s. Some (sources_text s.branch (codes s.program.now)) };

    fn fmt<W: fmt::Write>(&self, f: &mut fmt::Formatter<W>) -> fmt::Result {
        let mut separator = "";
        for (place, instr) in self.program.iter().enumerate() {
            if self.branch.is_of(*instr) {
                write!(f, "{separator}{place}")?;
                separator = ", ";
            }
        }
        Ok(())
    }
}

// From where a place is jumped to and called, as a comment; nothing if it is neither.
#[derive(Clone, Copy)]
pub(crate) struct Origins<'a> {
    pub program: &'a [Instr],
    pub place: usize,
    // What stands between the instruction and the comment.
    pub gap: Blanks,
}

impl fmt::Display for Origins<'_> {
    ghost output = { λ o. Some (origins_text (codes o.program.now) o.place o.gap.count) };

    fn fmt<W: fmt::Write>(&self, f: &mut fmt::Formatter<W>) -> fmt::Result {
        let jumps = Sources {
            program: self.program,
            branch: Branch::Jump(self.place),
        };
        let calls = Sources {
            program: self.program,
            branch: Branch::Call(self.place),
        };
        let gap = self.gap;
        match (jumps.any(), calls.any()) {
            (true, true) => write!(f, "{gap}# jumped to from {jumps}; called from {calls}"),
            (true, false) => write!(f, "{gap}# jumped to from {jumps}"),
            (false, true) => write!(f, "{gap}# called from {calls}"),
            (false, false) => Ok(()),
        }
    }
}
