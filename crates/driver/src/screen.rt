// What a command shows: at most one text.
ghost use Rattle.std.specs.Prelude.{◌≡◌, ◌≤◌, [], length, IfOk, vec_capacity};
ghost use Rattle.driver.specs.Screens.{showed, seen_on, ShowsIt};

use crate::event::Ending;
use std::alloc::{AllocError, Global};

// No text is longer than a row.
const LONGEST: usize = 65_536;

#[derive(Drop)]
pub struct Screen {
    text: Vec<u64>,
    // A flag, since an empty text can be shown, and the room for one stays when none is.
    shown: bool,
    // Room for a text is there from the start.
    ghost wide: { 65536 ≤ vec_capacity text },
}

impl Screen {
    pub fn new(heap: Global) -> Result<Screen, AllocError>
        ensures { IfOk result (λ s. showed s.shown s.text.items ≡ []) }
    {
        let text = Vec::with_capacity(heap, LONGEST)?;
        Ok(Screen { text, shown: false })
    }

    pub fn clear(&mut self)
        ensures { showed self.new.shown self.new.text.items ≡ [] }
    {
        self.shown = false;
    }

    // Shows a text, unless one is shown already.
    pub fn show(&mut self, text: &[u64]) -> Result<(), Ending>
        requires { length text.now ≤ 65536 }
        ensures { ShowsIt result (showed self.old.shown self.old.text.items) text.now (showed self.new.shown self.new.text.items) }
    {
        if self.shown {
            return Err(Ending::ShownTwice);
        }
        self.text.clear();
        // There is room for the longest text.
        let _ = self.text.extend_from_slice(text);
        self.shown = true;
        Ok(())
    }

    pub fn text(&self) -> Option<&[u64]>
        ensures { seen_on result ≡ showed self.now.shown self.now.text.items }
    {
        if self.shown {
            Some(self.text.as_slice())
        } else {
            None
        }
    }
}
