// Programs as bytes, written and read exactly as the definitions spell them.
#![tactic(auto)]

mod spelled;

pub use spelled::{ReadError, read_program, write_program};
