// Where the program is, and when, as the debugger shows it and as the user sees it.
ghost use Rattle.dialogue.specs.Placed.{Places};

use std::fmt;
use target::answers::Why;

#[derive(Clone, Copy)]
pub struct Place {
    // Steps since the program began.
    pub time: u64,
    // The next instruction.
    pub at: u64,
    // Why it does not go on from there, if it does not.
    pub why: Option<Why>,
}

impl Place {
    // The place that three numbers show: the time, the next instruction, and why it does not go on.
    pub fn shown(numbers: &[u64]) -> Option<Place>
        ensures { Places numbers.now result }
    {
        let [time, at, number] = numbers else {
            return None;
        };
        let why = match *number {
            0 => None,
            number => Some(Why::try_from(number).ok()?),
        };
        Some(Place {
            time: *time,
            at: *at,
            why,
        })
    }
}

// A session's place reads the same, of a narrower address; a type for what stands behind both would be longer than these lines.
impl fmt::Display for Place {
    fn fmt<W: fmt::Write>(&self, f: &mut fmt::Formatter<W>) -> fmt::Result {
        let time = self.time;
        let at = self.at;
        write!(f, "{time} at {at}")?;
        match self.why {
            None => Ok(()),
            Some(why) => write!(f, " {why}"),
        }
    }
}
