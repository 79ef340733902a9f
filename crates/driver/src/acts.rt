// Each act, carried to the processor.
ghost use Rattle.std.specs.Prelude.{◌≡◌, ℕ, ◌<◌, ◌≤◌, List, length, MatchResult};
ghost use Rattle.machine.specs.declared.acts.Told.TheVariants.{Starts, Feeds, Goes, Keeps, TakesUp, Looks};
ghost use Rattle.machine.specs.declared.acts.Look.TheVariants as looked;
ghost use Rattle.driver.specs.Carried.{Serves, Carries, Shown, SoundHeard};
ghost use Rattle.driver.specs.Screens.{showed};
ghost use Rattle.driver.specs.declared.event.Ending.TheVariants.{Refused};
ghost use Rattle.driver.specs.declared.refusal.Refusal.TheVariants.{Fault as AFault};

use crate::event::{Ending, Event, FAULT, number_of};
use crate::rows::{read_back, read_breaks};
use crate::screen::Screen;
use command::breaks::{BLANK_TEST, Break};
use command::code::Instr;
use machine::{Look, ROW, Told};
use target::answers::Fault;
use target::processor::Processor;

// The longest program, and the most numbers that are given or looked at at once.
pub const MOST: usize = 4_096;

const MOST_BREAKS: usize = 64;

const BLANK: Break = Break {
    place: None,
    tests: [BLANK_TEST; 8],
    count: 0,
    changed: None,
};

const BLANKS: [Break; MOST_BREAKS] = [BLANK; MOST_BREAKS];

// What the breaks of a row are read into: from a function of its own, since a proof cannot compute with such a literal.
fn blanks() -> [Break; MOST_BREAKS] {
    BLANKS
}

// So many, where there is room for them.
fn within(count: u64, most: usize) -> Result<usize, Ending>
    ensures { MatchResult result (λ n. (n ≡ count) × (n ≤ most)) (λ e. (e ≡ Refused AFault) × (most < count)) }
{
    let count = count as usize;
    if count > most {
        return Err(FAULT);
    }
    Ok(count)
}

// Starting and feeding stay two functions, as keeping and taking up do: each calls another method of the processor.
fn start<P: Processor>(p: &mut P, count: u64, row: &[u64; ROW]) -> Result<Event, Ending>
    ensures done { (seen : List ℕ) → Serves (Starts count) row.now (P.like p.old) result (P.room p.new) (P.like p.new) seen }
    ensures sound { SoundHeard result 4096 }
{
    let mut program = [Instr::Halt; MOST];
    let program = &mut program[..within(count, MOST)?];
    read_back(row, program)?;
    p.begin(program)?;
    Ok(Event::Next)
}

fn feed<P: Processor>(p: &mut P, count: u64, row: &[u64; ROW]) -> Result<Event, Ending>
    ensures done { (seen : List ℕ) → Serves (Feeds count) row.now (P.like p.old) result (P.room p.new) (P.like p.new) seen }
    ensures sound { SoundHeard result 4096 }
{
    let mut numbers = [0; MOST];
    let numbers = &mut numbers[..within(count, MOST)?];
    read_back(row, numbers)?;
    p.feed(numbers)?;
    Ok(Event::Next)
}

fn go<P: Processor>(p: &mut P, n: u64, row: &[u64; ROW]) -> Result<Event, Ending>
    ensures done { (seen : List ℕ) → Serves (Goes n) row.now (P.like p.old) result (P.room p.new) (P.like p.new) seen }
    ensures sound { SoundHeard result 4096 }
{
    let mut breaks = blanks();
    let breaks = &mut breaks[..within(row[0], MOST_BREAKS)?];
    read_breaks(&row[1..], breaks)?;
    // Only here does a lack of memory end the run in a way of its own.
    match p.goes(n, breaks) {
        Ok(came) => Ok(Event::Came(came)),
        Err(Fault::NoMemory) => Err(Ending::NoMemory),
        Err(fault) => Err(fault.into()),
    }
}

fn keep<P: Processor>(p: &mut P, slot: u64, row: &[u64; ROW]) -> Result<Event, Ending>
    ensures done { (seen : List ℕ) → Serves (Keeps slot) row.now (P.like p.old) result (P.room p.new) (P.like p.new) seen }
    ensures sound { SoundHeard result 4096 }
{
    p.keep(slot)?;
    Ok(Event::Next)
}

fn take_up<P: Processor>(p: &mut P, slot: u64, row: &[u64; ROW]) -> Result<Event, Ending>
    ensures done { (seen : List ℕ) → Serves (TakesUp slot) row.now (P.like p.old) result (P.room p.new) (P.like p.new) seen }
    ensures sound { SoundHeard result 4096 }
{
    p.take_up(slot)?;
    Ok(Event::Next)
}

// The four looks stay apart: each calls another method of the processor.
fn look_at_registers<P: Processor>(
    p: &P,
    row: &[u64; ROW],
    seen: &mut [u64; MOST],
) -> Result<Event, Ending>
    ensures done { Serves (Looks looked.Registers) row.now (P.like p.now) result (P.room p.now) (P.like p.now) seen.new }
    ensures sound { SoundHeard result 4096 }
{
    let registers = p.registers().map(u64::from);
    seen[..registers.len()].copy_from_slice(&registers);
    Ok(Event::Saw(registers.len()))
}

fn look_at_words<P: Processor>(
    p: &P,
    row: &[u64; ROW],
    seen: &mut [u64; MOST],
) -> Result<Event, Ending>
    ensures done { Serves (Looks looked.Words) row.now (P.like p.now) result (P.room p.now) (P.like p.now) seen.new }
    ensures sound { SoundHeard result 4096 }
{
    let count = within(row[1], MOST)?;
    p.words(row[0], &mut seen[..count])?;
    Ok(Event::Saw(count))
}

fn look_at_outs<P: Processor>(
    p: &P,
    row: &[u64; ROW],
    seen: &mut [u64; MOST],
) -> Result<Event, Ending>
    ensures done { Serves (Looks looked.Outs) row.now (P.like p.now) result (P.room p.now) (P.like p.now) seen.new }
    ensures sound { SoundHeard result 4096 }
{
    let count = within(row[1], MOST)?;
    let found = p.outs(row[0], &mut seen[..count])?;
    Ok(Event::Saw(found))
}

fn look_where<P: Processor>(
    p: &P,
    row: &[u64; ROW],
    seen: &mut [u64; MOST],
) -> Result<Event, Ending>
    ensures done { Serves (Looks looked.Place) row.now (P.like p.now) result (P.room p.now) (P.like p.now) seen.new }
    ensures sound { SoundHeard result 4096 }
{
    let spot = p.spot();
    seen[0] = u64::from(spot.at);
    seen[1] = number_of(spot.why);
    Ok(Event::Saw(2))
}

fn look<P: Processor>(
    p: &P,
    what: Look,
    row: &[u64; ROW],
    seen: &mut [u64; MOST],
) -> Result<Event, Ending>
    ensures done { Serves (Looks what) row.now (P.like p.now) result (P.room p.now) (P.like p.now) seen.new }
    ensures sound { SoundHeard result 4096 }
{
    match what {
        Look::Registers => look_at_registers(p, row, seen),
        Look::Words => look_at_words(p, row, seen),
        Look::Outs => look_at_outs(p, row, seen),
        Look::Place => look_where(p, row, seen),
    }
}

fn show(screen: &mut Screen, count: u64, row: &[u64; ROW]) -> Result<Event, Ending>
    ensures { Shown result count row.now (showed screen.old.shown screen.old.text.items) (showed screen.new.shown screen.new.text.items) }
{
    let count = within(count, ROW)?;
    screen.show(&row[..count])?;
    Ok(Event::Next)
}

// An act is carried to the processor or to the screen.
pub fn carry<P: Processor>(
    p: &mut P,
    screen: &mut Screen,
    told: Told,
    row: &[u64; ROW],
    seen: &mut [u64; MOST],
) -> Result<Event, Ending>
    ensures done { Carries told row.now (P.like p.old) (showed screen.old.shown screen.old.text.items) result (P.room p.new) (P.like p.new) (showed screen.new.shown screen.new.text.items) seen.new }
    ensures sound { SoundHeard result 4096 }
{
    match told {
        Told::Starts(count) => start(p, count, row),
        Told::Feeds(count) => feed(p, count, row),
        Told::Goes(n) => go(p, n, row),
        Told::Keeps(slot) => keep(p, slot, row),
        Told::TakesUp(slot) => take_up(p, slot, row),
        Told::Looks(what) => look(p, what, row, seen),
        Told::Shows(count) => show(screen, count, row),
        Told::Done => Err(Ending::Done),
        Told::No(why) => Err(Ending::Refused(why.into())),
    }
}
