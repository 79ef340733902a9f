// The worked box, row by row, and each way in which a command can end.
ghost use Rattle.std.specs.Prelude.{◌<◌};

use command::breaks::{Break, Subject, Test};
use command::code::{Comparison, Instr, Op, Reg};
use command::commands::Order;
use std::alloc::Global;
use std::process::Abort;
use std::test::Fail;
use trial::debugger::Trial;
use trial::turns::Refusal;

fn reg(number: u8) -> Reg
    requires { number < 16 }
{
    Reg { number }
}

// Adds up what comes in, up to a 0, in word 10, and counts it in word 11; but once the sum is 20, instruction 17 writes it over the count.
fn worked_box() -> [Instr; 19] {
    let base = reg(1);
    let came = reg(2);
    let sum = reg(4);
    let count = reg(5);
    [
        Instr::Load(reg(15), 1000),
        Instr::Load(reg(7), 20),
        Instr::Load(base, 10),
        Instr::In(came),
        Instr::JumpIf(Comparison::Equal, came, reg(3), 10),
        Instr::Read(sum, base, 0),
        Instr::Reckon(Op::Sum, sum, came),
        Instr::Write(sum, base, 0),
        Instr::Call(12),
        Instr::Jump(3),
        Instr::Out(sum),
        Instr::Halt,
        Instr::Read(count, base, 1),
        Instr::Load(reg(6), 1),
        Instr::Reckon(Op::Sum, count, reg(6)),
        Instr::JumpIf(Comparison::NotLess, sum, reg(7), 17),
        Instr::Write(count, base, 1),
        Instr::Write(sum, base, 1),
        Instr::Return,
    ]
}

// Where word 10 changed and isn't below 14.
fn sum_is_14() -> Result<Break, Fail> {
    let test = Test {
        subject: Subject::Word(10),
        comparison: Comparison::NotLess,
        value: 14,
    };
    Break::with(None, [test; 8], 1, Some(10)).ok_or_else(|| Fail::new("too many tests"))
}

// A command, the row of numbers that it is to show, if one, or why it is refused, and how many steps it may take.
#[derive(Clone, Copy)]
struct Row<'a> {
    order: Order,
    answer: Result<Option<&'a [u64]>, Refusal>,
    granted: u64,
}

fn moves<'a>(order: Order, time: &'a [u64; 1], granted: u64) -> Row<'a> {
    Row {
        order,
        answer: Ok(Some(time)),
        granted,
    }
}

fn shows<'a>(order: Order, numbers: &'a [u64]) -> Row<'a> {
    Row {
        order,
        answer: Ok(Some(numbers)),
        granted: 0,
    }
}

fn done<'a>(order: Order) -> Row<'a> {
    Row {
        order,
        answer: Ok(None),
        granted: 0,
    }
}

fn refused<'a>(order: Order, refusal: Refusal, granted: u64) -> Row<'a> {
    Row {
        order,
        answer: Err(refusal),
        granted,
    }
}

fn play(rt: &impl Abort, trial: &mut Trial, heap: Global, row: &Row) -> Result<(), Fail> {
    let turn = trial.turn(heap, row.order)?;
    let answer = match &turn.answer {
        Ok(shown) => Ok(shown.as_ref().map(|numbers| numbers.as_slice())),
        Err(refusal) => Err(*refusal),
    };
    assert_eq!(rt; answer, row.answer);
    assert_eq!(rt; turn.granted, row.granted);
    Ok(())
}

fn plays(rt: &impl Abort, trial: &mut Trial, heap: Global, rows: &[Row]) -> Result<(), Fail> {
    for row in rows {
        play(rt, trial, heap, row)?;
    }
    Ok(())
}

// The box as far as its end.
fn run_box(rt: &impl Abort, heap: Global) -> Result<Trial, Fail> {
    let mut trial = Trial::new(heap)?;
    assert_eq!(rt; trial.load(&worked_box())?.answer, Ok(None));
    plays(
        rt,
        &mut trial,
        heap,
        &[
            shows(Order::Where, &[0, 0, 0]),
            moves(Order::Forward(100), &[3], 3),
            shows(Order::Where, &[3, 3, 2]),
        ],
    )?;
    assert_eq!(rt; trial.give(&[5, 9, 8, 0])?.answer, Ok(None));
    plays(
        rt,
        &mut trial,
        heap,
        &[
            moves(Order::Run(1000), &[47], 44),
            shows(Order::Where, &[47, 11, 1]),
        ],
    )?;
    Ok(trial)
}

#[test]
fn box_looks_back(rt: HostRuntime) -> Result<(), Fail> {
    let mut trial = run_box(&rt, rt.alloc())?;
    plays(
        &rt,
        &mut trial,
        rt.alloc(),
        &[
            shows(Order::Words { from: 10, count: 2 }, &[22, 22]),
            shows(Order::Outs { from: 0, count: 5 }, &[22]),
            moves(Order::Changer(11), &[42], 4096 + 32 * 5),
            shows(Order::Outs { from: 0, count: 5 }, &[]),
            shows(Order::Where, &[42, 18, 0]),
            moves(Order::Back(1), &[41], 4096 + 16),
            shows(Order::Words { from: 10, count: 2 }, &[22, 14]),
        ],
    )
}

#[test]
fn box_breaks(rt: HostRuntime) -> Result<(), Fail> {
    let mut trial = run_box(&rt, rt.alloc())?;
    let stop = sum_is_14()?;
    plays(
        &rt,
        &mut trial,
        rt.alloc(),
        &[
            moves(Order::Back(6), &[41], 4096 + 16 * 6),
            shows(Order::Break(stop), &[1]),
            moves(Order::Rerun(1000), &[36], 4096 + 32 * 5),
            shows(Order::Where, &[36, 8, 0]),
            moves(Order::Rerun(1000), &[22], 4096 + 32 * 14),
            moves(Order::Run(1000), &[36], 14),
            done(Order::Drop(1)),
            refused(Order::Drop(1), Refusal::NoSuch, 0),
            refused(Order::Changer(12), Refusal::NoSuch, 4096 + 8 * 36),
        ],
    )?;
    assert_eq!(rt; trial.time(), 36);
    Ok(())
}

#[test]
fn box_registers(rt: HostRuntime) -> Result<(), Fail> {
    let mut trial = run_box(&rt, rt.alloc())?;
    let last = [0, 10, 0, 0, 22, 15, 1, 20, 0, 0, 0, 0, 0, 0, 0, 1000];
    plays(
        &rt,
        &mut trial,
        rt.alloc(),
        &[
            shows(Order::Registers, &last),
            moves(Order::Back(1_000_000_000), &[0], 4096 + 16 * 47),
            shows(Order::Registers, &[0; 16]),
            shows(Order::Words { from: 10, count: 2 }, &[0, 0]),
            moves(Order::Forward(1000), &[47], 47),
            shows(Order::Registers, &last),
            shows(
                Order::Words {
                    from: 65_535,
                    count: 9,
                },
                &[0],
            ),
        ],
    )
}

#[test]
fn waits_and_goes_on(rt: HostRuntime) -> Result<(), Fail> {
    let mut trial = Trial::new(rt.alloc())?;
    let _ = trial.load(&[Instr::In(reg(0)), Instr::Out(reg(0)), Instr::Jump(0)])?;
    plays(
        &rt,
        &mut trial,
        rt.alloc(),
        &[moves(Order::Run(9), &[0], 0)],
    )?;
    let _ = trial.give(&[7])?;
    plays(
        &rt,
        &mut trial,
        rt.alloc(),
        &[
            moves(Order::Run(9), &[3], 3),
            moves(Order::Back(2), &[1], 4096 + 16 * 2),
        ],
    )?;
    let _ = trial.give(&[8, 9])?;
    plays(
        &rt,
        &mut trial,
        rt.alloc(),
        &[
            moves(Order::Forward(100), &[9], 8),
            shows(Order::Where, &[9, 0, 2]),
            shows(Order::Outs { from: 1, count: 1 }, &[8]),
            shows(Order::Outs { from: 1, count: 9 }, &[8, 9]),
            moves(Order::Back(2), &[7], 4096 + 16 * 2),
            shows(Order::Outs { from: 0, count: 9 }, &[7, 8]),
        ],
    )
}

// A count that is written over and over.
#[test]
fn goes_far(rt: HostRuntime) -> Result<(), Fail> {
    let mut trial = Trial::new(rt.alloc())?;
    let _ = trial.load(&[
        Instr::Load(reg(1), 1),
        Instr::Reckon(Op::Sum, reg(0), reg(1)),
        Instr::Write(reg(0), reg(2), 7),
        Instr::Jump(1),
    ])?;
    plays(
        &rt,
        &mut trial,
        rt.alloc(),
        &[
            moves(Order::Forward(300_000), &[300_000], 300_000),
            shows(Order::Words { from: 6, count: 3 }, &[0, 100_000, 0]),
            refused(Order::Changer(8), Refusal::NoSuch, 4096 + 8 * 300_000),
            moves(Order::Changer(7), &[300_000], 4096),
            moves(Order::Back(299_999), &[1], 4096 + 16 * 299_999),
            shows(Order::Words { from: 6, count: 3 }, &[0, 0, 0]),
            moves(Order::Run(299_998), &[299_999], 299_998),
            shows(Order::Words { from: 6, count: 3 }, &[0, 99_999, 0]),
        ],
    )
}

// A program of which so many steps can be done, and where and why it then stands.
fn stands(
    rt: &impl Abort,
    heap: Global,
    program: &[Instr],
    time: u64,
    at: u64,
    why: u64,
) -> Result<(), Fail> {
    let mut trial = Trial::new(heap)?;
    let _ = trial.load(program)?;
    plays(
        rt,
        &mut trial,
        heap,
        &[
            moves(Order::Forward(9), &[time], time),
            shows(Order::Where, &[time, at, why]),
        ],
    )
}

#[test]
fn wrong_steps(rt: HostRuntime) -> Result<(), Fail> {
    let k = reg(3);
    stands(&rt, rt.alloc(), &[Instr::Halt], 0, 0, 1)?;
    stands(&rt, rt.alloc(), &[Instr::In(k)], 0, 0, 2)?;
    stands(&rt, rt.alloc(), &[Instr::Jump(9)], 1, 9, 11)?;
    stands(&rt, rt.alloc(), &[Instr::Call(0)], 0, 0, 12)?;
    stands(
        &rt,
        rt.alloc(),
        &[Instr::Load(k, 65_535), Instr::Read(k, k, 1)],
        1,
        1,
        12,
    )?;
    stands(
        &rt,
        rt.alloc(),
        &[Instr::Reckon(Op::Remainder, k, k)],
        0,
        0,
        13,
    )
}

#[test]
fn breaks_are_numbered(rt: HostRuntime) -> Result<(), Fail> {
    let mut trial = Trial::new(rt.alloc())?;
    let stop = sum_is_14()?;
    for number in 1..65u64 {
        plays(
            &rt,
            &mut trial,
            rt.alloc(),
            &[shows(Order::Break(stop), &[number])],
        )?;
    }
    plays(
        &rt,
        &mut trial,
        rt.alloc(),
        &[
            refused(Order::Break(stop), Refusal::Full, 0),
            done(Order::Drop(64)),
            refused(Order::Drop(64), Refusal::NoSuch, 0),
            shows(Order::Break(stop), &[65]),
            refused(Order::Drop(0), Refusal::NoSuch, 0),
        ],
    )?;
    let _ = trial.load(&[Instr::Halt])?;
    plays(
        &rt,
        &mut trial,
        rt.alloc(),
        &[
            refused(Order::Drop(1), Refusal::NoSuch, 0),
            shows(Order::Break(stop), &[1]),
        ],
    )
}

#[test]
fn no_more_than_fit(rt: HostRuntime) -> Result<(), Fail> {
    let mut trial = Trial::new(rt.alloc())?;
    for _ in 0..16u64 {
        assert_eq!(rt; trial.give(&[1; 4096])?.answer, Ok(None));
    }
    assert_eq!(rt; trial.give(&[1])?.answer, Err(Refusal::Full));
    assert_eq!(rt;
        trial.load(&[Instr::Halt; 4097])?.answer,
        Err(Refusal::NoCommand)
    );
    assert_eq!(rt; trial.load(&[Instr::Halt])?.answer, Ok(None));
    assert_eq!(rt; trial.give(&[1])?.answer, Ok(None));
    Ok(())
}
