// What the debugger shows, as numbers: eight bytes each, the highest first.
ghost use Rattle.std.specs.Prelude.{◌≡◌, IfOk};
ghost use Rattle.dialogue.specs.Spelled.{Begins, Spells};

use command::reading::Cursor;
use std::alloc::{AllocError, Global};

// The numbers that bytes spell, as far as they spell any.
pub fn numbers_of(heap: Global, bytes: &[u64]) -> Result<Vec<u64>, AllocError>
    ensures begins { IfOk result (λ v. Begins bytes.now v.items) }
    ensures spells { IfOk result (λ v. Spells bytes.now v.items) }
{
    let mut numbers = Vec::new(heap);
    let mut cursor = Cursor { rest: bytes };
    while let Some(number) = cursor.up_to(u64::MAX) {
        numbers.push(number)?;
    }
    Ok(numbers)
}
