// What is proved of the processor and of the plain debugger. Each function does nothing; its contract is a statement, so that the check fails
// without its proof.
ghost use Rattle.command.specs.Statements.{SpelledOnce, ReadExactly, PastSame, WordsRight, SmallNumbers, SmallStates, OutsGrow, FirstStop, LastStop, ChangerLast};
ghost use Rattle.command.specs.Exact.{FirstStopExact, LastStopExact, ChangerExact};
ghost use Rattle.command.specs.Box.{WorkedBox};

// No two commands are spelled alike.
pub fn spelled_once() -> u8
    ensures { SpelledOnce }
{
    0
}

// A text is read as a command if and only if it spells that command, and the command fits.
pub fn read_exactly() -> u8
    ensures { ReadExactly }
{
    0
}

// Input that comes later leaves the states as they were, as far as the processor ran without it.
pub fn past_same() -> u8
    ensures { PastSame }
{
    0
}

// A word that was written holds what was written last, and every other word what it held.
pub fn words_right() -> u8
    ensures { WordsRight }
{
    0
}

// Whatever is reckoned of numbers below 2^32 is below 2^32.
pub fn small_numbers() -> u8
    ensures { SmallNumbers }
{
    0
}

// If program and input fit: at all times there are sixteen registers, and registers, words, what went out and the place are below 2^32.
pub fn small_states() -> u8
    ensures { SmallStates }
{
    0
}

// What went out by a time is the beginning of what went out by any later time.
pub fn outs_grow() -> u8
    ensures { OutsGrow }
{
    0
}

// Going on stops at the first time at which a break holds, after all the steps asked for, or where it does not go on.
pub fn first_stop() -> u8
    ensures { FirstStop }
{
    0
}

// Going back stops at the last time before at which a break holds, after all the steps asked for, or at the beginning.
pub fn last_stop() -> u8
    ensures { LastStop }
{
    0
}

// The last change of a word is a change, and there is none after it.
pub fn changer_last() -> u8
    ensures { ChangerLast }
{
    0
}

// Going on stops at a time if and only if it ran till there, no break held on the way, and there is a reason to stop. Stronger than
// `first_stop`, which a debugger that runs past a halt would meet.
pub fn first_stop_exact() -> u8
    ensures { FirstStopExact }
{
    0
}

// Going back stops at a time if and only if no break held on the way and there is a reason to stop. Stronger than `last_stop`, which a
// debugger that finds again the break that holds now would meet.
pub fn last_stop_exact() -> u8
    ensures { LastStopExact }
{
    0
}

// The last change is at a time if and only if the word changed there and not after; there is none if and only if the word never changed.
pub fn changer_exact() -> u8
    ensures { ChangerExact }
{
    0
}

// A worked example: a session that finds the mistake in a small program, answered row by row.
pub fn worked_box() -> u8
    ensures { WorkedBox }
{
    0
}
