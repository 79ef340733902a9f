// All the words at once: zeroed, kept in a slot's row of pages, and taken up again.
ghost use Rattle.std.specs.Prelude.{◌≡◌, ℕ, ◌+◌, ◌*◌, ◌/◌, ◌<◌, ◌≤◌, true, false, length, IfOk, vec_len, ◌==◌, slice_index, slice_index_or};
ghost use Rattle.command.specs.Machine.{pick};
ghost use Rattle.processor.specs.Pages.{Clean};
ghost use Rattle.processor.specs.Held.{held_word};

use crate::copying::copy_page;
use crate::pages::Pages;
use crate::store::PRESENT;
use crate::words::Words;
use std::alloc::{AllocError, Global};

// Each page that was written since it was kept goes into the store; the present row then has all the words.
fn flush(items: &[u32], dirty: &[bool; 256], pages: &mut Pages)
    requires full { length items.now ≡ 65536 }
    requires room { 256 ≤ vec_len pages.old.free }
    requires clean { Clean items.now dirty.now pages.old.cells.items pages.old.tables.items }
    ensures present { (a : ℕ) → a < 65536 → held_word pages.new 256 a ≡ slice_index items.now a }
    ensures others { (row a : ℕ) → row < 256 → a < 65536 → held_word pages.new row a ≡ held_word pages.old row a }
{
    for (p, written) in dirty.iter().enumerate() {
        if *written {
            pages.store(items, p);
        }
    }
}

// The words become the slot's. While this runs the ghost fields of `Words` don't hold, so it is no method of it.
fn restore(items: &mut [u32], dirty: &[bool; 256], pages: &Pages, slot: u8)
    requires full { length items.old ≡ 65536 }
    requires clean { Clean items.old dirty.now pages.now.cells.items pages.now.tables.items }
    ensures { (a : ℕ) → a < 65536 → slice_index items.new a ≡ held_word pages.now slot a }
{
    for (p, written) in dirty.iter().enumerate() {
        let page = pages.tables[slot as usize * 256 + p];
        if *written || page != pages.tables[PRESENT * 256 + p] {
            copy_page(items, p, pages.cells.as_slice(), page as usize);
        }
    }
}

impl Words {
    pub(crate) fn zeros(heap: Global) -> Result<Words, AllocError>
        ensures { IfOk result (λ w. (a : ℕ) → slice_index w.items.items a ≡ 0) }
    {
        let items = vec![in heap; 0u32; 65536]?;
        let pages = Pages::zeros(heap)?;
        Ok(Words {
            items,
            dirty: [true; 256],
            pages,
        })
    }

    pub(crate) fn clear(&mut self)
        ensures { (a : ℕ) → slice_index self.new.items.items a ≡ 0 }
    {
        self.items.fill(0);
        self.dirty = [true; 256];
    }

    // Keeps the words in a slot's row.
    pub(crate) fn keep(&mut self, slot: u8)
        ensures same { self.new.items.items ≡ self.old.items.items }
        ensures kept { (row a : ℕ) → row < 256 → a < 65536 → held_word self.new.pages row a ≡ pick (row == slot) (slice_index self.old.items.items a) (held_word self.old.pages row a) }
    {
        self.pages.make_room();
        flush(self.items.as_slice(), &self.dirty, &mut self.pages);
        self.pages.copy_row(slot as usize, PRESENT);
        self.dirty = [false; 256];
    }

    // Takes up the words of a slot's row.
    pub(crate) fn take_up(&mut self, slot: u8)
        ensures taken { (a : ℕ) → a < 65536 → slice_index self.new.items.items a ≡ held_word self.old.pages slot a }
        ensures rows { (row a : ℕ) → row < 256 → a < 65536 → held_word self.new.pages row a ≡ held_word self.old.pages row a }
    {
        restore(self.items.as_mut_slice(), &self.dirty, &self.pages, slot);
        self.pages.copy_row(PRESENT, slot as usize);
        self.dirty = [false; 256];
    }
}
