// What is lent to a step.
use crate::cells::{CELLS, ROW};

#[derive(Drop)]
pub struct Lent<'a> {
    pub memory: &'a mut [u64; CELLS],
    // What goes with an act, and is read by whoever carries it.
    pub row: &'a mut [u64; ROW],
}
