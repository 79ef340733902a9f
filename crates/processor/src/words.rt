// The processor's 65,536 words, and the pages on which they were last kept.
ghost use Rattle.std.specs.Prelude.{◌≡◌, vec_len};
ghost use Rattle.processor.specs.Pages.{Clean};

use crate::pages::Pages;

#[derive(Drop)]
pub(crate) struct Words {
    // A `Vec`, since an array of that size in a box would be made on the stack first.
    pub(crate) items: Vec<u32>,
    // Which pages were written since they were kept.
    pub(crate) dirty: [bool; 256],
    pub(crate) pages: Pages,
    ghost full: { vec_len items ≡ 65536 },
    ghost clean: { Clean items.items dirty pages.cells.items pages.tables.items },
}
