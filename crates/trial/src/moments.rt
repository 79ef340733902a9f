// What is kept of the state at a time, and of the step that came to it.

// A word that a step wrote.
#[derive(Clone, Copy)]
pub(crate) struct Written {
    pub(crate) place: u16,
    pub(crate) before: u32,
    pub(crate) after: u32,
}

// The words and all that went out follow from these of all the steps.
#[derive(Clone, Copy)]
pub(crate) struct Moment {
    pub(crate) at: u32,
    pub(crate) regs: [u32; 16],
    // How much has come in.
    pub(crate) taken: usize,
    pub(crate) written: Option<Written>,
    // What the step put out.
    pub(crate) out: Option<u32>,
}

// Why there is no step from a state. Its own: the debugger that this one is to be played against shares no code with it.
#[derive(Clone, Copy)]
pub(crate) enum Why {
    Halted,
    Waits,
    NoInstr,
    NoWord,
    ByZero,
}
