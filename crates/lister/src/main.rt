// Lists the program of a file: source text, or the bytes that spell a program.
#![tactic(auto)]

mod programs;
#[cfg(test)]
mod tests;

use listing::Listing;
use programs::program_of;
use std::process::ExitCode;
use std::{env, io};

// The status to end with; where nothing is listed, standard error says why.
fn run(rt: &HostRuntime) -> io::Result<ExitCode> {
    let mut words = env::args(rt)?.skip(1);
    let (Some(name), None) = (words.next(), words.next()) else {
        eprintln!(rt; "usage: lister FILE    lists a program from its source text or its bytes")?;
        return Ok(ExitCode::FAILURE);
    };
    match program_of(rt, name.as_str()) {
        Ok(assembly) => {
            rt.print(Listing::whole(assembly.program.as_slice(), assembly.labels.as_slice()))?;
            Ok(ExitCode::SUCCESS)
        }
        Err(failure) => {
            eprintln!(rt; "{name}: {failure}")?;
            Ok(ExitCode::FAILURE)
        }
    }
}

fn main(rt: HostRuntime) -> anyhow::Result<ExitCode> {
    Ok(run(&rt)?)
}
