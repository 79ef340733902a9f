// Programs from files.
use assembler::{Assembly, assemble};
use sources::Failure;
use std::io;

fn assembled(rt: &HostRuntime, name: &str) -> Result<Assembly, Failure> {
    let text = sources::read(rt, name)?;
    Ok(assemble(rt.alloc(), text.as_slice())?)
}

// The program of a file; none where there is no such file or it does not assemble, and then it has said why.
pub fn program_of(rt: &HostRuntime, name: &str) -> io::Result<Option<Assembly>> {
    match assembled(rt, name) {
        Ok(assembly) => Ok(Some(assembly)),
        Err(failure) => {
            println!(rt; "{name}: {failure}")?;
            Ok(None)
        }
    }
}
