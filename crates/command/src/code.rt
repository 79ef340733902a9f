// The processor's instructions. Registers, numbers and places have types that hold no others, so every value is an instruction that is allowed.
ghost use Rattle.std.specs.Prelude.{◌≡◌, ◌<◌, ◌≤◌, MatchOption};

// One of sixteen registers.
#[derive(Clone, Copy, Debug, PartialEq, Eq)]
pub struct Reg {
    pub number: u8,
    ghost ok: { number < 16 },
}

impl Reg {
    // The register of that number, if there is one.
    pub fn numbered(number: u8) -> Option<Reg>
        ensures { MatchOption result (16 ≤ number) (λ k. (number < 16) × (k.number ≡ number)) }
    {
        if number < 16 {
            Some(Reg { number })
        } else {
            None
        }
    }
}

// What `reckon` does with two registers, modulo 2^32; shifts are by the second modulo 32.
#[derive(Clone, Copy, Debug, PartialEq, Eq)]
pub enum Op {
    Sum,
    Difference,
    Product,
    Quotient,
    Remainder,
    And,
    Or,
    Either,
    Left,
    Right,
}

// How two numbers compare. Less and NotLess are `below` and `not below` at the keyboard.
#[derive(Clone, Copy, Debug, PartialEq, Eq)]
pub enum Comparison {
    Equal,
    Unequal,
    Less,
    NotLess,
}

#[derive(Clone, Copy, Debug, PartialEq, Eq)]
pub enum Instr {
    Load(Reg, u32),
    // To, from.
    Copied(Reg, Reg),
    Reckon(Op, Reg, Reg),
    // To, the word at a register and an offset.
    Read(Reg, Reg, u16),
    // From, the word at a register and an offset.
    Write(Reg, Reg, u16),
    Jump(u16),
    JumpIf(Comparison, Reg, Reg, u16),
    Call(u16),
    Return,
    In(Reg),
    Out(Reg),
    Halt,
}
