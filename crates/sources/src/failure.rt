// Why a file gives no program.
ghost use Rattle.std.specs.Prelude.{◌≡◌, Some};
ghost use Rattle.sources.specs.Texts.{unread_text, failure_text, failure_of};

use assembler::{AssembleError, Mistake};
use std::fmt;
use std::io::ErrorKind;

#[derive(Drop)]
pub enum Failure {
    Unread(ErrorKind),
    Wrong(Mistake),
    NoMemory,
}

fn unread(kind: ErrorKind) -> &'static str
    ensures { result.now ≡ unread_text kind }
{
    match kind {
        ErrorKind::NotFound => "there is no such file",
        ErrorKind::IsADirectory => "this is a folder, and no file",
        ErrorKind::PermissionDenied => "this file may not be read",
        _ => "this file cannot be read",
    }
}

impl fmt::Display for Failure {
    ghost output = { λ x. Some (failure_text x) };

    fn fmt<W: fmt::Write>(&self, f: &mut fmt::Formatter<W>) -> fmt::Result {
        match self {
            Failure::Unread(kind) => f.write_str(unread(*kind)),
            Failure::Wrong(mistake) => write!(f, "{mistake}"),
            Failure::NoMemory => f.write_str("there is no memory left for it"),
        }
    }
}

impl From<AssembleError> for Failure {
    ghost from_gives = { λ error failure. failure ≡ failure_of error };

    fn from(error: AssembleError) -> Failure {
        match error {
            AssembleError::Wrong(mistake) => Failure::Wrong(mistake),
            AssembleError::NoMemory => Failure::NoMemory,
        }
    }
}
