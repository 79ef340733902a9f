// What the debugger is told.
ghost use Rattle.std.specs.Prelude.{◌≡◌, ◌<◌, ◌≤◌, MatchOption};
ghost use Rattle.machine.specs.Entry.{event_of};
ghost use Rattle.machine.specs.Phases.{event_meant};

#[derive(Clone, Copy, Debug, PartialEq, Eq)]
pub enum Event<'a> {
    // A command's bytes.
    Said(&'a [u64]),
    Came(Came),
    // What was looked at.
    Saw(&'a [u64]),
    // The last act is done.
    Next,
}

// How far the processor came, whether a break holds, and why it stopped.
#[derive(Clone, Copy, Debug, PartialEq, Eq)]
pub struct Came {
    pub by: u64,
    pub hit: bool,
    // A number, since any may be told: 0 is no reason, each other one is.
    pub why: u64,
}

// The event of a kind, or none if there is no such kind. The kind is a number, as the interface of a step gives it.
pub fn event_from(kind: u64, a: u64, b: u64, c: u64, told: &[u64]) -> Option<Event<'_>>
    ensures { MatchOption result (3 < kind) (λ e. (kind ≤ 3) × (event_meant e ≡ event_of kind a b c told.now)) }
{
    match kind {
        0 => Some(Event::Said(told)),
        1 => Some(Event::Came(Came {
            by: a,
            hit: b == 1,
            why: c,
        })),
        2 => Some(Event::Saw(told)),
        3 => Some(Event::Next),
        _ => None,
    }
}
