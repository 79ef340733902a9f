// Breaks: where the processor is to stop.
ghost use Rattle.std.specs.Prelude.{◌≡◌, ◌<◌, ◌≤◌, take, MatchOption};

use crate::code::{Comparison, Reg};

// What a test looks at.
#[derive(Clone, Copy, Debug, PartialEq, Eq)]
pub enum Subject {
    Register(Reg),
    Word(u16),
}

#[derive(Clone, Copy, Debug, PartialEq, Eq)]
pub struct Test {
    pub subject: Subject,
    pub comparison: Comparison,
    pub value: u32,
}

// What fills room for tests that are not given.
pub const BLANK_TEST: Test = Test {
    subject: Subject::Word(0),
    comparison: Comparison::Equal,
    value: 0,
};

// Holds after a step: at a place, or any if none is given; if the first `count` tests hold; if the step changed a word, or whatever if none is given.
// Eight tests with their count, as a break is handed over by value, with no heap.
#[derive(Clone, Copy, Debug, PartialEq, Eq)]
pub struct Break {
    pub place: Option<u16>,
    pub tests: [Test; 8],
    pub count: u8,
    pub changed: Option<u16>,
    ghost few: { count ≤ 8 },
}

impl Break {
    // A break with the first `count` of eight tests; none where there are more than eight.
    pub fn with(
        place: Option<u16>,
        tests: [Test; 8],
        count: u8,
        changed: Option<u16>,
    ) -> Option<Break>
        ensures { MatchOption result (8 < count) (λ b. (count ≤ 8) × (b.place ≡ place) × (b.tests ≡ tests) × (b.count ≡ count) × (b.changed ≡ changed)) }
    {
        if count > 8 {
            return None;
        }
        Some(Break {
            place,
            tests,
            count,
            changed,
        })
    }

    // The tests that are to hold.
    pub fn tests(&self) -> &[Test]
        ensures { result.now ≡ take self.now.count self.now.tests }
    {
        &self.tests[..self.count as usize]
    }
}
