// Places and refusals as the user sees them.
ghost use Rattle.std.specs.Prelude.{Some};
ghost use Rattle.session.specs.Shown.{place_text, refusal_text};

use crate::debugger::{Place, Refusal};
use std::fmt;

// Behind the place, why it does not go on from there.
impl fmt::Display for Place {
    ghost output = { λ p. Some (place_text p) };

    fn fmt<W: fmt::Write>(&self, f: &mut fmt::Formatter<W>) -> fmt::Result {
        let Place { time, spot } = *self;
        write!(f, "{time} at {}", spot.at)?;
        match spot.why {
            None => Ok(()),
            Some(why) => write!(f, " {why}"),
        }
    }
}

impl fmt::Display for Refusal {
    ghost output = { λ e. Some (refusal_text e) };

    fn fmt<W: fmt::Write>(&self, f: &mut fmt::Formatter<W>) -> fmt::Result {
        match self {
            Refusal::Full(fed) => write!(
                f,
                "refused 7: at most 65536 numbers can come in, and {fed} have"
            ),
            Refusal::NoMemory => f.write_str("there is no memory left for that"),
            Refusal::Fault(fault) => write!(f, "{fault}"),
        }
    }
}
