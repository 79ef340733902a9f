// Commands written as the bytes that spell them. Numbers out of range are written too: the reader refuses them.
ghost use Rattle.std.specs.Prelude.{◌≡◌, ◌∷◌, ◌++◌, length, IfOk};
ghost use Rattle.command.specs.Machine.{each, eight, flat};
ghost use Rattle.command.specs.Plain.{spelled, load, give};
ghost use Rattle.command.specs.Codes.{codes};
ghost use Rattle.command.specs.Told.{meant};
ghost use Rattle.command.specs.Written.{Puts, program_spelled};

use crate::byte::Byte;
use crate::code::Instr;
use crate::command_kinds::{
    BACK, BREAK, CHANGER, DROP, FORWARD, GIVE, LOAD, OUTS, REGISTERS, RERUN, RUN, WHERE, WORDS,
};
use crate::commands::Order;
use crate::spelled::Spelled;
use crate::writing::parts::{put, put_with};
use crate::writing::stops::put_break;
use std::alloc::{AllocError, Global};

mod instruction;
mod parts;
mod stops;

pub(crate) use instruction::put_instr;
pub use parts::eight_bytes;
pub(crate) use parts::put_number;
pub(crate) use stops::put_test;

// Two numbers behind a byte.
fn put_two(out: &mut Vec<u64>, kind: u8, first: u64, second: u64) -> Result<(), AllocError>
    ensures { Puts out.old.items (kind ∷ eight first ++ eight second) result out.new.items }
{
    put_with(out, &[kind], first)?;
    put_number(out, second)
}

pub(crate) fn put_each<B: Byte, T: Spelled>(out: &mut Vec<B>, items: &[T]) -> Result<(), AllocError>
    ensures { Puts (B.text out.old.items) (flat T.spelled (each T.meant items.now)) result (B.text out.new.items) }
{
    for item in items {
        (*item).put(out)?;
    }
    Ok(())
}

// A list: its count, and each of it.
fn put_list<B: Byte, T: Spelled>(out: &mut Vec<B>, items: &[T]) -> Result<(), AllocError>
    ensures { Puts (B.text out.old.items) (eight (length (each T.meant items.now)) ++ flat T.spelled (each T.meant items.now)) result (B.text out.new.items) }
{
    put_number(out, items.len() as u64)?;
    put_each(out, items)
}

fn put_order(out: &mut Vec<u64>, order: Order) -> Result<(), AllocError>
    ensures { Puts out.old.items (spelled (meant order)) result out.new.items }
{
    match order {
        Order::Forward(steps) => put_with(out, &[FORWARD], steps),
        Order::Back(steps) => put_with(out, &[BACK], steps),
        Order::Run(steps) => put_with(out, &[RUN], steps),
        Order::Rerun(steps) => put_with(out, &[RERUN], steps),
        Order::Changer(word) => put_with(out, &[CHANGER], word),
        Order::Break(stop) => {
            put(out, &[BREAK])?;
            put_break(out, stop)
        }
        Order::Drop(number) => put_with(out, &[DROP], number),
        Order::Where => put(out, &[WHERE]),
        Order::Registers => put(out, &[REGISTERS]),
        Order::Words { from, count } => put_two(out, WORDS, from, count),
        Order::Outs { from, count } => put_two(out, OUTS, from, count),
    }
}

pub fn write(heap: Global, order: Order) -> Result<Vec<u64>, AllocError>
    ensures { IfOk result (λ text. text.items ≡ spelled (meant order)) }
{
    let mut text = Vec::new(heap);
    put_order(&mut text, order)?;
    Ok(text)
}

// A program alone, with no command.
pub fn write_program<B: Byte>(heap: Global, program: &[Instr]) -> Result<Vec<B>, AllocError>
    ensures { IfOk result (λ bytes. B.text bytes.items ≡ program_spelled (codes program.now)) }
{
    let mut bytes = Vec::new(heap);
    put_list(&mut bytes, program)?;
    Ok(bytes)
}

pub fn write_load(heap: Global, program: &[Instr]) -> Result<Vec<u64>, AllocError>
    ensures { IfOk result (λ text. text.items ≡ spelled (load (codes program.now))) }
{
    let mut text = Vec::new(heap);
    put(&mut text, &[LOAD])?;
    put_list(&mut text, program)?;
    Ok(text)
}

pub fn write_give(heap: Global, numbers: &[u32]) -> Result<Vec<u64>, AllocError>
    ensures { IfOk result (λ text. text.items ≡ spelled (give numbers.now)) }
{
    let mut text = Vec::new(heap);
    put(&mut text, &[GIVE])?;
    put_list(&mut text, numbers)?;
    Ok(text)
}
