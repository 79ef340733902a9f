// The lines that are typed.
ghost use Rattle.std.specs.Prelude.{◌≡◌, [], IfOk, IfErr};
ghost use Rattle.std.specs.IoError.{error_kind};
ghost use Rattle.console.specs.Typed.{without_newline};

use std::io;
use std::io::{BufRead, BufReader, ErrorKind, Stdin, Write};

#[derive(Drop)]
pub struct Input {
    reader: BufReader<Stdin>,
    line: Vec<u8>,
    echo: bool,
}

impl Input {
    // Where there is no memory for what is typed ahead, nothing is made.
    pub fn new(rt: &HostRuntime, echo: bool) -> io::Result<Input>
        ensures echo { IfOk result (λ i. i.echo ≡ echo) }
        ensures empty { IfOk result (λ i. i.line.items ≡ []) }
        ensures err { IfErr result (λ e. error_kind e ≡ ErrorKind.OutOfMemory) }
    {
        let reader = BufReader::new(rt.alloc(), rt.stdin())?;
        Ok(Input {
            reader,
            line: Vec::new(rt.alloc()),
            echo,
        })
    }

    // Asks for a line and reads it; false at the end of the input. The line is not answered but read by `text`: where a slice is lent out of a
    // `&mut`, clauses have no value of it after the call.
    pub fn next_line(&mut self, rt: &HostRuntime) -> io::Result<bool>
        ensures echo { self.new.echo ≡ self.old.echo }
    {
        if !self.echo {
            rt.print("> ")?;
        }
        self.line.clear();
        let count = self.reader.read_until(b'\n', &mut self.line)?;
        if count == 0 {
            return Ok(false);
        }
        if self.echo {
            rt.print("> ")?;
            rt.stdout().write_all(self.text())?;
            rt.println("")?;
        }
        Ok(true)
    }

    // The line, without its end.
    pub fn text(&self) -> &[u8]
        ensures { result.now ≡ without_newline self.now.line.items }
    {
        match self.line.as_slice() {
            [text @ .., b'\n'] => text,
            text => text,
        }
    }
}
