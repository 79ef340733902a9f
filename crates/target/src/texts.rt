// Reasons and refusals as the user sees them.
ghost use Rattle.std.specs.Prelude.{Some};
ghost use Rattle.target.specs.Texts.{why_text, fault_text};

use crate::answers::{Fault, Why};
use std::fmt;

impl fmt::Display for Why {
    ghost output = { λ y. Some (why_text y) };

    fn fmt<W: fmt::Write>(&self, f: &mut fmt::Formatter<W>) -> fmt::Result {
        f.write_str(match self {
            Why::Halted => "halted",
            Why::Waits => "waits",
            Why::NoInstr => "wrong 1",
            Why::NoWord => "wrong 2",
            Why::ByZero => "wrong 3",
        })
    }
}

impl fmt::Display for Fault {
    ghost output = { λ e. Some (fault_text e) };

    fn fmt<W: fmt::Write>(&self, f: &mut fmt::Formatter<W>) -> fmt::Result {
        f.write_str(match self {
            Fault::TooLong => "the processor takes programs of at most 4096 instructions",
            Fault::TooManyBreaks => "the processor takes at most 64 breaks",
            Fault::NoSuchSlot => "the processor has no such slot",
            Fault::EmptySlot => "the processor has kept nothing there",
            Fault::TooManyNumbers => "the processor shows at most 4096 numbers at once",
            Fault::NoMemory => "the processor has no memory left",
        })
    }
}
