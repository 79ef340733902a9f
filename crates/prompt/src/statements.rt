// What is proved of reading a line. Each function does nothing; its contract is a statement, so that the check fails without its proof.
ghost use Rattle.prompt.specs.Statements.{SpelledOut, TypedBack};

// A word that is spelled out means that command.
pub fn spelled_out() -> u8
    ensures { SpelledOut }
{
    0
}

// A command that is typed in full, with numbers that are allowed, is read as that.
pub fn typed_back() -> u8
    ensures { TypedBack }
{
    0
}
