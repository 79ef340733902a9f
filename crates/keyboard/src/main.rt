// The debugger at the keyboard: opens a session on a program's file, or on none, and carries out what is typed.
#![tactic(auto)]

mod arguments;

use arguments::Arguments;
use console::conversation::Conversation;
use processor::emulator::Emulator;
use session::debugger::Session;

fn run(rt: &HostRuntime) -> anyhow::Result<()> {
    let arguments = Arguments::given(rt)?;
    let emulator = Emulator::new(rt.alloc())?;
    let mut conversation = Conversation::new(Session::new(emulator), arguments.echo);
    conversation.open(rt, &arguments.file)?;
    conversation.hold(rt)?;
    Ok(())
}

fn main(rt: HostRuntime) -> anyhow::Result<()> {
    run(&rt)
}
