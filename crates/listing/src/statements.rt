// What is proved of listings. Each function does nothing; its contract is a statement, so that the check fails without its proof.
ghost use Rattle.listing.specs.Statements.{Unlabelled, Told, NamedBack};

// Where there are no labels, an instruction is listed as the assembler writes it.
fn unlabelled() -> u8
    ensures { Unlabelled }
{
    0
}

// A step that neither stays, goes on nor returns comes from an instruction that names the place where it leads.
fn told() -> u8
    ensures { Told }
{
    0
}

// An instruction as it is listed, with labels that are clear, assembles to itself.
fn named_back() -> u8
    ensures { NamedBack }
{
    0
}
