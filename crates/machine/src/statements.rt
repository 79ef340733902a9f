// What is proved of the debugger as a machine. Each function does nothing; its contract is a statement, so that the check fails without its proof.
ghost use Rattle.std.specs.Prelude.{Bool};
ghost use Rattle.command.specs.Plain.{Command, core};
ghost use Rattle.target.specs.Run.{Engine, Steady};
ghost use Rattle.machine.specs.Engine.{own};
ghost use Rattle.machine.specs.Fair.{Fair};
ghost use Rattle.machine.specs.Promise.{Holding, Whole};

// Its memory never grows, nor do its numbers beyond 64 bits.
pub fn steady() -> u8
    ensures { Steady own }
{
    0
}

// For every command that the core knows it answers as the plain debugger does, within the steps granted and 2^64 - 1 turns; others are refused. So for 2^32
// commands, whatever is said.
pub fn holding_core() -> u8
    ensures { Holding core own }
{
    0
}

// The main promise, for the core.
pub fn whole_core() -> u8
    ensures { Whole core own }
{
    0
}

// The promise turn by turn is at least the main one, of every engine.
pub fn holding_is_whole() -> u8
    ensures { (known : Command → Bool) (e : Engine) → Holding known e → Whole known e }
{
    0
}

// Whatever it is told, what its acts hold can be read back from a row, and it counts what comes in.
pub fn fair() -> u8
    ensures { Fair own }
{
    0
}
