// Programs from files.
use assembler::{Assembly, assemble};
use sources::Failure;
use spelling::{ReadError, read_program};
use std::alloc::Global;

// The program that bytes spell as a whole, which has no labels, or else the one that they are the source text of.
pub(crate) fn program_in(heap: Global, bytes: &[u8]) -> Result<Assembly, Failure> {
    match read_program(heap, bytes) {
        Ok(program) => Ok(Assembly {
            program,
            labels: Vec::new(heap),
        }),
        Err(ReadError::NoProgram) => Ok(assemble(heap, bytes)?),
        Err(ReadError::NoMemory) => Err(Failure::NoMemory),
    }
}

pub fn program_of(rt: &HostRuntime, name: &str) -> Result<Assembly, Failure> {
    let bytes = sources::read(rt, name)?;
    program_in(rt.alloc(), bytes.as_slice())
}
