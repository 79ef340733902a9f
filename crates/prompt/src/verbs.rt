// The command words, and which of them a word means.
ghost use Rattle.std.specs.Prelude.{◌≡◌, ◌&&◌, length, nat_lt};
ghost use Rattle.prompt.specs.Verbs.{spelling, is_front, no_verb, choice, verbs, Chosen};

use crate::mistakes::Expected;

// One for each command word. A new one is added here, in VERBS and in `spelled`.
#[derive(Clone, Copy, Debug, PartialEq, Eq)]
pub enum Verb {
    Load,
    Give,
    Forward,
    Where,
    Registers,
    Words,
    Outs,
    Help,
    Quit,
}

pub const VERBS: [Verb; 9] = [
    Verb::Load,
    Verb::Give,
    Verb::Forward,
    Verb::Where,
    Verb::Registers,
    Verb::Words,
    Verb::Outs,
    Verb::Help,
    Verb::Quit,
];

impl Verb {
    // Text that lasts, not a Display: it is compared as well as shown.
    pub fn spelled(self) -> &'static str
        ensures { result.now ≡ spelling self }
    {
        match self {
            Verb::Load => "load",
            Verb::Give => "give",
            Verb::Forward => "forward",
            Verb::Where => "where",
            Verb::Registers => "registers",
            Verb::Words => "words",
            Verb::Outs => "outs",
            Verb::Help => "help",
            Verb::Quit => "quit",
        }
    }

    // Whether a word is the front of this one's spelling.
    pub(crate) fn begins_with(self, word: &[u8]) -> bool
        ensures { result ≡ is_front word.now (spelling self) }
    {
        self.spelled().as_bytes().starts_with(word)
    }

    // Whether a word is the front of this one's spelling, and not all of it.
    pub(crate) fn goes_on_from(self, word: &[u8]) -> bool
        ensures { result ≡ is_front word.now (spelling self) && nat_lt (length word.now) (length (spelling self)) }
    {
        self.begins_with(word) && word.len() < self.spelled().len()
    }
}

// The command that a word means: the one that it spells out, or else the only one that it is the front of.
pub(crate) fn choose(word: &[u8]) -> Result<Verb, Expected>
    ensures { Chosen (choice word.now verbs no_verb) result }
{
    let mut chosen = Err(Expected::Command);
    for verb in VERBS {
        if verb.begins_with(word) {
            if verb.spelled().len() == word.len() {
                return Ok(verb);
            }
            chosen = match chosen {
                Err(Expected::Command) => Ok(verb),
                _ => Err(Expected::MoreLetters),
            };
        }
    }
    chosen
}
