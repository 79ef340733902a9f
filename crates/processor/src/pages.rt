// The store of pages in which states keep their words. States that agree on a page share it.
ghost use Rattle.std.specs.Prelude.{◌≡◌, ◌≤◌, vec_len, vec_capacity};
ghost use Rattle.processor.specs.Pages.{Inside, FreeInside, Apart, Distinct};

// Pages have numbers, since states share them, and room for the most that may be named is taken at once: keeping a state may not want memory.
// A row of 256 page numbers for each slot, and one more, the present, for the words as they were last kept or taken up.
#[derive(Drop)]
pub(crate) struct Pages {
    pub(crate) cells: Vec<u32>,
    pub(crate) tables: Vec<u32>,
    // Pages that no row names.
    pub(crate) free: Vec<u32>,
    // Which pages some row names, while they are collected.
    pub(crate) used: Vec<bool>,
    ghost full: { vec_len cells ≡ 18874368 },
    ghost rows: { vec_len tables ≡ 65792 },
    ghost marks: { vec_len used ≡ 73728 },
    ghost room: { 73728 ≤ vec_capacity free },
    ghost inside: { Inside tables.items },
    ghost spare: { FreeInside free.items },
    ghost apart: { Apart tables.items free.items },
    ghost distinct: { Distinct free.items },
}
