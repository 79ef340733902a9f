// Assembler and disassembler of the processor's instructions: text to programs, and programs to text.
//
// A source text has one instruction to a line, as `load 15, 1000` or `jump not below 4, 7, large`. A # begins a comment.
// Operands are separated by blanks, a comma or both. A register is a number from 0 to 15, also after an r; a number is decimal, or
// hexadecimal after 0x. A line may begin with a label, as `large:`, that names the place of the next instruction, and a place that is
// wanted is a label or a number. The words equal, unequal, below and not, behind `jump`, are no labels.
#![tactic(auto)]

mod cursor;
mod instruction;
mod labels;
mod listing;
mod mistakes;
mod names;
mod source;
mod words;

pub use labels::Label;
pub use listing::{Listed, disassemble};
pub use mistakes::{AssembleError, Expected, Mistake};
pub use names::comparison_name;
pub use source::{Assembly, assemble};
