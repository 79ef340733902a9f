// The store of pages at work: a page is put into it, the pages that no row names are collected, a row becomes another's.
ghost use Rattle.std.specs.Prelude.{◌≡◌, ℕ, ◌+◌, ◌*◌, ◌/◌, ◌%◌, ◌<◌, ◌≤◌, Bool, true, false, ◌&&◌, length, vec_len, vec_capacity, ◌==◌, ◌≢◌, slice_index, slice_index_or};
ghost use Rattle.command.specs.Machine.{pick};
ghost use Rattle.processor.specs.Pages.{Inside, page_word, marked, Gathered, Stored};

use crate::copying::copy_page;
use crate::pages::Pages;
use std::alloc::{AllocError, Global};

// The row of the words as they were last kept or taken up.
pub(crate) const PRESENT: usize = 256;
// A page for each place of each row, and as many more as make collecting rare.
const PAGES: usize = 73728;
// The numbers of all pages: 256 to a page.
const CELLS: usize = PAGES * 256;
// A place for each page of each row, the present one too.
const PLACES: usize = (PRESENT + 1) * 256;

// Marks the pages that a row names, and no others.
fn mark(tables: &[u32], used: &mut [bool])
    requires rows { length tables.now ≡ 65792 }
    requires inside { Inside tables.now }
    requires marks { length used.old ≡ 73728 }
    ensures few { marked used.new ≤ 65792 }
    ensures all { (i : ℕ) → i < 65792 → slice_index_or used.new (slice_index tables.now i) false ≡ true }
{
    used.fill(false);
    for page in tables {
        used[*page as usize] = true;
    }
}

// The pages that are not marked are free.
fn gather(used: &[bool], free: &mut Vec<u32>)
    requires marks { length used.now ≡ 73728 }
    requires few { marked used.now ≤ 65792 }
    requires room { 73728 ≤ vec_capacity free.old }
    ensures room { 73728 ≤ vec_capacity free.new }
    ensures many { 7936 ≤ vec_len free.new }
    ensures gathered { Gathered used.now 73728 free.new.items }
{
    free.clear();
    for (page, named) in used.iter().enumerate() {
        if !*named {
            // There is room for every page.
            let _ = free.push(page as u32);
        }
    }
}

impl Pages {
    // Pages of zeros, the first of which every row names.
    pub(crate) fn zeros(heap: Global) -> Result<Pages, AllocError> {
        let cells = vec![in heap; 0u32; CELLS]?;
        let tables = vec![in heap; 0u32; PLACES]?;
        let mut used = vec![in heap; false; PAGES]?;
        let mut free = Vec::with_capacity(heap, PAGES)?;
        mark(tables.as_slice(), used.as_mut_slice());
        gather(used.as_slice(), &mut free);
        Ok(Pages {
            cells,
            tables,
            free,
            used,
        })
    }

    // Makes every page free again that no row names, if there might be too few for a state that shares none.
    pub(crate) fn make_room(&mut self)
        ensures room { 256 ≤ vec_len self.new.free }
        ensures cells { self.new.cells.items ≡ self.old.cells.items }
        ensures tables { self.new.tables.items ≡ self.old.tables.items }
    {
        if self.free.len() >= 256 {
            return;
        }
        mark(self.tables.as_slice(), self.used.as_mut_slice());
        gather(self.used.as_slice(), &mut self.free);
    }

    // Page `p` of the words goes onto a free page, which the present row names from then on.
    pub(crate) fn store(&mut self, words: &[u32], p: usize)
        requires page { p < 256 }
        requires words { length words.now ≡ 65536 }
        requires room { 0 < vec_len self.old.free }
        ensures room { vec_len self.old.free ≡ vec_len self.new.free + 1 }
        ensures stored { Stored words.now p self.old.cells.items self.old.tables.items self.new.cells.items self.new.tables.items }
    {
        // A page is free by the contract, so there is no error to hand on.
        let Some(f) = self.free.pop() else {
            return;
        };
        copy_page(self.cells.as_mut_slice(), f as usize, words, p);
        self.tables[PRESENT * 256 + p] = f;
    }

    // Row `to` names the pages that row `from` names.
    pub(crate) fn copy_row(&mut self, to: usize, from: usize)
        requires to { to ≤ 256 }
        requires from { from ≤ 256 }
        requires other { to ≢ from }
        ensures cells { self.new.cells.items ≡ self.old.cells.items }
        ensures rows { (j a : ℕ) → a < 65536 → page_word self.new.cells.items self.new.tables.items j a ≡ pick (j == to) (page_word self.old.cells.items self.old.tables.items from a) (page_word self.old.cells.items self.old.tables.items j a) }
    {
        self.tables
            .copy_within(from * 256..from * 256 + 256, to * 256);
    }
}
