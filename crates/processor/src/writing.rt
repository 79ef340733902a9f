// Single words, read and written.
ghost use Rattle.std.specs.Prelude.{◌≡◌, slice_index, slice_set};

use crate::words::Words;

// A word that was written, and what it held before, so that whether it changed costs no second look.
#[derive(Clone, Copy)]
pub(crate) struct Overwritten {
    pub(crate) place: u16,
    pub(crate) before: u32,
}

impl Words {
    pub(crate) fn get(&self, a: u16) -> u32
        ensures { result ≡ slice_index self.now.items.items a }
    {
        self.items[a as usize]
    }

    pub(crate) fn put(&mut self, a: u16, v: u32) -> Overwritten
        ensures items { self.new.items.items ≡ slice_set self.old.items.items a v }
        ensures pages { self.new.pages ≡ self.old.pages }
        ensures word { result ≡ record { place = a; before = slice_index self.old.items.items a } }
    {
        let before = self.items[a as usize];
        self.items[a as usize] = v;
        self.dirty[a as usize / 256] = true;
        Overwritten { place: a, before }
    }
}
