// A source text in two passes: its labels, and then its instructions.
ghost use Rattle.std.specs.Prelude.{◌≡◌, true, [], IfOk, string_bytes, OnOk};
ghost use Rattle.command.specs.Codes.{code, codes};
ghost use Rattle.assembler.specs.Words.{a_name};
ghost use Rattle.assembler.specs.Reading.{Took, left, shown_name, AName, Named, NamedAlone};
ghost use Rattle.assembler.specs.Instructions.{labels_of};
ghost use Rattle.assembler.specs.Again.{Loadable};
ghost use Rattle.assembler.specs.Source.{new_label, next_place, noted, read_label, line_label, with_label, find_labels, instr_of, read_line, line_instr, with_instr, read_lines, lines, assembled, assembly_of, Answers};

use crate::cursor::Cursor;
use crate::labels::{Label, place_of};
use crate::mistakes::{AssembleError, Expected};
use crate::words::{Line, ends_line, past_blanks, shown};
use command::code::Instr;
use scan::fronts::is_over;
use std::alloc::{AllocError, Global};

#[derive(Drop)]
pub struct Assembly {
    pub program: Vec<Instr>,
    pub labels: Vec<Label>,
}

// As many instructions as a program may have.
const MOST: u16 = 4096;

// The place after what is left of a line.
fn next_place(place: u16, rest: &[u8]) -> Result<u16, Expected>
    ensures { result ≡ next_place place rest.now }
{
    if is_over(rest) {
        Ok(place)
    } else if place < MOST {
        Ok(place + 1)
    } else {
        Err(Expected::Room)
    }
}

fn owned_name(heap: Global, name: &[u8]) -> Result<String, AllocError>
    requires { a_name name.now ≡ true }
    ensures { IfOk result (λ s. string_bytes s ≡ name.now) }
{
    shown(heap, name)
}

// The new label of a line, if it has one.
fn new_label<'t>(cursor: &mut Cursor<'t>, labels: &[Label]) -> Result<Option<&'t [u8]>, Expected>
    ensures read { Took shown_name (new_label (labels_of labels.now) (left cursor.old)) result (left cursor.new) }
    ensures named { NamedAlone result }
{
    let line = cursor.rest;
    let name = cursor.label()?;
    if let Some(name) = name {
        if place_of(labels, name).is_some() {
            cursor.rest = past_blanks(line);
            return Err(Expected::NewLabel);
        }
    }
    Ok(name)
}

// The new label of a line, if it has one, and the place after the line.
fn read_label<'t>(
    cursor: &mut Cursor<'t>,
    labels: &[Label],
    place: u16,
) -> Result<(Option<&'t [u8]>, u16), Expected>
    ensures read { Took noted (read_label (labels_of labels.now) place (left cursor.old)) result (left cursor.new) }
    ensures named { Named result }
{
    let name = new_label(cursor, labels)?;
    let next = next_place(place, cursor.rest)?;
    Ok((name, next))
}

// The same, with the line's number in what is wrong.
fn line_label<'t>(
    heap: Global,
    labels: &[Label],
    place: u16,
    line: Line<'t>,
) -> Result<(Option<&'t [u8]>, u16), AssembleError>
    ensures read { Answers noted (line_label line.entry.number (labels_of labels.now) place line.entry.text.now) result }
    ensures named { Named result }
{
    let mut cursor = Cursor { rest: line.text };
    // A match, as in `line_instr`: the contract of a closure for `map_err` would not say which mistake it tells.
    match read_label(&mut cursor, labels, place) {
        Ok(label) => Ok(label),
        Err(expected) => Err(AssembleError::on(heap, line, cursor.rest, expected)),
    }
}

// One more label, if there is one.
fn put_label(
    heap: Global,
    labels: &mut Vec<Label>,
    name: Option<&[u8]>,
    place: u16,
) -> Result<(), AllocError>
    requires { AName name }
    ensures { OnOk result (labels_of labels.new.items ≡ with_label (labels_of labels.old.items) place (shown_name name.entry)) }
{
    if let Some(name) = name {
        let name = owned_name(heap, name)?;
        labels.push(Label { name, place })?;
    }
    Ok(())
}

// The labels of a text, each with the place of the next instruction.
fn find_labels(heap: Global, text: &[u8]) -> Result<Vec<Label>, AssembleError>
    ensures { Answers (λ v. labels_of v.items) (find_labels 1 [] 0 (lines text.now)) result }
{
    let mut labels = Vec::new(heap);
    let mut place = 0;
    for (i, piece) in text.split_inclusive(ends_line).enumerate() {
        let line = Line::of(i, piece);
        let (name, next) = line_label(heap, &labels, place, line)?;
        put_label(heap, &mut labels, name, place)?;
        place = next;
    }
    Ok(labels)
}

// The instruction of a line, if it has one.
fn read_line(cursor: &mut Cursor<'_>, labels: &[Label]) -> Result<Option<Instr>, Expected>
    ensures { Took instr_of (read_line (labels_of labels.now) (left cursor.old)) result (left cursor.new) }
{
    cursor.label()?;
    if is_over(cursor.rest) {
        return Ok(None);
    }
    let instr = cursor.instruction(labels)?;
    Ok(Some(instr))
}

// The same, with the line's number in what is wrong.
fn line_instr(
    heap: Global,
    labels: &[Label],
    line: Line<'_>,
) -> Result<Option<Instr>, AssembleError>
    ensures { Answers instr_of (line_instr line.entry.number (labels_of labels.now) line.entry.text.now) result }
{
    let mut cursor = Cursor { rest: line.text };
    match read_line(&mut cursor, labels) {
        Ok(instr) => Ok(instr),
        Err(expected) => Err(AssembleError::on(heap, line, cursor.rest, expected)),
    }
}

// One more instruction, if there is one.
fn put_instr(program: &mut Vec<Instr>, instr: Option<Instr>) -> Result<(), AllocError>
    ensures { OnOk result (codes program.new.items ≡ with_instr (codes program.old.items) (instr_of instr)) }
{
    if let Some(instr) = instr {
        program.push(instr)?;
    }
    Ok(())
}

// The instructions of a text, whose labels are known.
fn read_lines(heap: Global, text: &[u8], labels: &[Label]) -> Result<Vec<Instr>, AssembleError>
    ensures { Answers (λ v. codes v.items) (read_lines 1 (labels_of labels.now) [] (lines text.now)) result }
{
    let mut program = Vec::new(heap);
    for (i, piece) in text.split_inclusive(ends_line).enumerate() {
        let line = Line::of(i, piece);
        let instr = line_instr(heap, labels, line)?;
        put_instr(&mut program, instr)?;
    }
    Ok(program)
}

// The program that a text writes, and its labels, or its first mistake.
pub fn assemble(heap: Global, text: &[u8]) -> Result<Assembly, AssembleError>
    ensures answer { Answers assembly_of (assembled text.now) result }
    ensures loadable { IfOk result (λ a. Loadable (codes a.program.items)) }
{
    let labels = find_labels(heap, text)?;
    let program = read_lines(heap, text, &labels)?;
    Ok(Assembly { program, labels })
}
