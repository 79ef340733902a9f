// The words behind the program's name: a file to begin with, and whether to echo what is typed.
use std::{env, io};

#[derive(Drop)]
pub struct Arguments {
    pub file: Option<String>,
    // Shows each line that is read, so that what a file of commands makes reads like a session.
    pub echo: bool,
}

impl Arguments {
    pub fn given(rt: &HostRuntime) -> io::Result<Arguments> {
        let mut arguments = Arguments {
            file: None,
            echo: false,
        };
        for word in env::args(rt)?.skip(1) {
            if word.as_str() == "--echo" {
                arguments.echo = true;
            } else {
                arguments.file = Some(word);
            }
        }
        Ok(arguments)
    }
}
