// Files read.
ghost use Rattle.std.specs.Prelude.{IfErr};
ghost use Rattle.sources.specs.Texts.{IsUnread};

use crate::failure::Failure;
use std::fs;

// All that a file holds.
pub fn read(rt: &HostRuntime, name: &str) -> Result<Vec<u8>, Failure>
    ensures { IfErr result IsUnread }
{
    fs::read(rt, name).map_err(|error| Failure::Unread(error.kind()))
}
