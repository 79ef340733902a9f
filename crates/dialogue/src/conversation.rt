// A conversation through the machine, before the first line.
ghost use Rattle.std.specs.Prelude.{◌≡◌, false, None};

pub use crate::listener::Listener;
use driver::Debugger;
use target::processor::Processor;

// A conversation over a debugger on a processor.
pub type Conversation<P> = console::conversation::Conversation<Listener<P>>;

pub fn new<P: Processor + Drop>(debugger: Debugger<P>, echo: bool) -> Conversation<P>
    ensures { (result.steered.debugger ≡ debugger) × (result.echo ≡ echo) × (result.last_move ≡ None) × (result.steered.stuck ≡ false) }
{
    Conversation::new(Listener::new(debugger), echo)
}
