// How quick it is: 40 million steps of a program on the processor, plain, with states kept, with breaks; states taken up; and the same through the whole
// debugger. With no program, nothing.
#![tactic(auto)]

mod whole;

use anyhow::anyhow;
use assembler::assemble;
use command::breaks::{Break, Subject, Test};
use command::code::{Comparison, Instr, Reg};
use processor::emulator::Emulator;
use std::time::Instant;
use std::{env, fs};
use target::answers::Fault;
use target::processor::Processor;
use whole::{machine_alone, through_the_debugger};

const STRIDE: u64 = 4096;

const STRIDES: u64 = 10000;

// In words of this program's own: `Display` has those that a user of the debugger reads.
fn told(fault: Fault) -> anyhow::Error {
    match fault {
        Fault::TooLong => anyhow!("more than 4,096 instructions"),
        Fault::NoMemory => anyhow!("no memory"),
        _ => anyhow!("the processor refused"),
    }
}

// So many strides, each kept in the next slot if wanted; how far it came.
fn strides(p: &mut Emulator, breaks: &[Break], keep: bool) -> Result<u64, Fault> {
    let mut by = 0u64;
    for i in 0..STRIDES {
        by = by.wrapping_add(p.goes(STRIDE, breaks)?.by);
        if keep {
            p.keep(i % 256)?;
        }
    }
    Ok(by)
}

// A break that never holds: a word that changes often, and a register that stays 0 is not below 1.
fn never() -> Option<Break> {
    let test = Test {
        subject: Subject::Register(Reg::numbered(3)?),
        comparison: Comparison::NotLess,
        value: 1,
    };
    Break::with(None, [test; 8], 1, Some(11))
}

fn timed(
    rt: &HostRuntime,
    p: &mut Emulator,
    program: &[Instr],
    name: &str,
    breaks: &[Break],
    keep: bool,
) -> anyhow::Result<()> {
    p.begin(program).map_err(told)?;
    let begun = Instant::now(rt)?;
    let by = strides(p, breaks, keep).map_err(told)?;
    let us = begun.elapsed(rt)?.as_micros();
    let at = p.spot().at;
    println!(rt; "{name} {us} us, {by} steps, at {at}")?;
    Ok(())
}

fn taken_up(rt: &HostRuntime, p: &mut Emulator) -> anyhow::Result<()> {
    let begun = Instant::now(rt)?;
    for i in 0..STRIDES {
        p.take_up(i % 256).map_err(told)?;
    }
    let us = begun.elapsed(rt)?.as_micros();
    println!(rt; "taken-up {us} us, {STRIDES} times")?;
    Ok(())
}

fn run(rt: &HostRuntime) -> anyhow::Result<()> {
    let mut words = env::args(rt)?;
    let _ = words.next();
    let Some(file) = words.next() else {
        return Ok(());
    };
    let text = fs::read(rt, file.as_str())?;
    let assembly = assemble(rt.alloc(), text.as_slice()).map_err(|_| anyhow!(
        "the program does not assemble"
    ))?;
    let watch = never().ok_or_else(|| anyhow!("no such break"))?;
    let program = assembly.program.as_slice();
    let mut p = Emulator::new(rt.alloc())?;
    timed(rt, &mut p, program, "plain", &[], false)?;
    timed(rt, &mut p, program, "kept", &[], true)?;
    taken_up(rt, &mut p)?;
    timed(rt, &mut p, program, "one-break", &[watch], false)?;
    timed(rt, &mut p, program, "64-breaks", &[watch; 64], false)?;
    through_the_debugger(rt, program)?;
    machine_alone(rt)
}

fn main(rt: HostRuntime) -> anyhow::Result<()> {
    run(&rt)
}
