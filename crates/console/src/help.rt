// What help says of each command.
use prompt::verbs::{VERBS, Verb};
use std::io;

// How a command is written, and what it does in a few words.
fn brief(verb: Verb) -> (&'static str, &'static str) {
    match verb {
        Verb::Load => ("load FILE", "begin anew with the program of a file"),
        Verb::Give => ("give N ..", "numbers that are to come in"),
        Verb::Forward => ("forward N", "go on by N steps, or as far as it goes"),
        Verb::Where => ("where", "the time and the place"),
        Verb::Registers => ("registers", "all sixteen registers"),
        Verb::Words => ("words A N", "N words from address A on"),
        Verb::Outs => ("outs A N", "N of what went out, from the one numbered A on"),
        Verb::Help => ("help [COMMAND]", "this list, or more on one command"),
        Verb::Quit => ("quit", "end the session"),
    }
}

fn details(verb: Verb) -> &'static str {
    match verb {
        Verb::Load => {
            "The file is assembled. Time begins at 0, and nothing has come in yet.\n\
             If there is no such file or it does not assemble, the program before stays."
        }
        Verb::Give => {
            "Up to 4096 numbers from 0 to 4294967295, after all that was given before.\n\
             Refused (7) if more than 65536 would have come in since the program began."
        }
        Verb::Forward => {
            "N is from 0 to 1000000000. Shows the time and the place where it then is.\n\
             An empty line does the last forward again."
        }
        Verb::Where => {
            "Steps since the program began, and the place of the next instruction: 42 at 18.\n\
             Behind it, where it does not go on: waits for something to come in, halted,\n\
             wrong 1 (no such instruction), wrong 2 (no such word), wrong 3 (a quotient by 0)."
        }
        Verb::Registers => "Four lines of four, r0 to r15.",
        Verb::Words => {
            "A is from 0 to 65535, N from 0 to 4096; past the last word there is nothing to show.\n\
             Up to eight words stand on one line, more in lines of eight behind their address."
        }
        Verb::Outs => "What went out is numbered from 0. N is from 0 to 4096.",
        Verb::Help => "A command may be cut short as long as it is clear: f 100, reg, wo 10 2.",
        Verb::Quit => "So does the end of the input.",
    }
}

pub fn show(rt: &HostRuntime, topic: Option<Verb>) -> io::Result<()> {
    let Some(verb) = topic else {
        return show_all(rt);
    };
    let (usage, summary) = brief(verb);
    println!(rt; "{usage}: {summary}")?;
    rt.println(details(verb))
}

fn show_all(rt: &HostRuntime) -> io::Result<()> {
    for verb in VERBS {
        let (usage, summary) = brief(verb);
        println!(rt; "{usage:<16}{summary}")?;
    }
    rt.println("Numbers are decimal, or hexadecimal behind 0x. # begins a comment.")
}
