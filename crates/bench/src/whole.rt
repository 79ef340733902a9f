// The same steps through the whole debugger, and what the machine itself takes for an act.
use anyhow::anyhow;
use command::code::Instr;
use command::commands::Order;
use command::writing::{write, write_load};
use driver::Debugger;
use machine::{CELLS, ROW, Told, step};
use processor::emulator::Emulator;
use std::time::Instant;

// As many as the bare processor goes.
const STEPS: u64 = 40_960_000;

// A processor that never stops: how the machine is answered. Its entry takes the kind of an event as a number.
const CAME: u64 = 1;

const NEXT: u64 = 3;

// Steps that the processor made for a command.
fn said(debugger: &mut Debugger<Emulator>, text: &[u64]) -> anyhow::Result<u64> {
    debugger
        .say(text)
        .map_err(|_| anyhow!("the debugger refused"))
}

pub fn through_the_debugger(rt: &HostRuntime, program: &[Instr]) -> anyhow::Result<()> {
    let mut debugger = Debugger::new(rt.alloc(), Emulator::new(rt.alloc())?)?;
    let load = write_load(rt.alloc(), program)?;
    said(&mut debugger, load.as_slice())?;
    let forward = write(rt.alloc(), Order::Forward(STEPS))?;
    let begun = Instant::now(rt)?;
    let by = said(&mut debugger, forward.as_slice())?;
    let us = begun.elapsed(rt)?.as_micros();
    println!(rt; "debugged {us} us, {by} steps")?;
    Ok(())
}

// The machine alone, told each time that the processor came as far as it was to, or kept what it was to.
pub fn machine_alone(rt: &HostRuntime) -> anyhow::Result<()> {
    let mut memory = vec![in rt.alloc(); 0; CELLS]?;
    let mut row = vec![in rt.alloc(); 0; ROW]?;
    let forward = write(rt.alloc(), Order::Forward(1_000_000_000))?;
    let begun = Instant::now(rt)?;
    let mut told = step(
        memory.as_mut_slice(),
        0,
        0,
        0,
        0,
        forward.as_slice(),
        row.as_mut_slice(),
    );
    let mut acts = 1u64;
    // A bound, since each function ends; the machine is done long before.
    for _ in 0..u64::MAX {
        let (kind, by) = match told {
            Told::Goes(n) => (CAME, n),
            Told::Done | Told::No(_) => break,
            _ => (NEXT, 0),
        };
        acts = acts.wrapping_add(1);
        told = step(
            memory.as_mut_slice(),
            kind,
            by,
            0,
            0,
            &[],
            row.as_mut_slice(),
        );
    }
    let us = begun.elapsed(rt)?.as_micros();
    println!(rt; "machine {us} us, {acts} acts")?;
    Ok(())
}
