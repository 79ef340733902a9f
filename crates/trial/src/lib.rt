// The plain debugger as a program that keeps every state there was. It is written from the meaning of the commands alone, and shares no code with the debugger
// that keeps few states, so that the two can be played beside each other.
//
// Each command is proved to end, to show and to leave the debugger as the definition of the plain one says, and its grant of steps too; see `Turns` and `Loads`
// in specs/Turns.antt. Where memory runs out, which an AllocError says, nothing is promised of the debugger but that it is safe to use.
#![tactic(auto)]

mod arith;
mod breaking;
pub mod debugger;
mod loading;
mod memory;
mod moments;
mod moving;
mod reasons;
mod showing;
mod steps;
mod stops;
pub mod turns;
