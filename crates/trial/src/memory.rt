// The words of memory: 65,536 of them, at any time.
ghost use Rattle.std.specs.Prelude.{◌≡◌, ◌<◌, ◌≤◌, replicate, take, drop, IfOk, MatchResult, slice_index, slice_set, vec_len};
ghost use Rattle.trial.specs.declared.moments.Why.TheVariants.{NoWord};

use crate::moments::Why;
use std::alloc::{AllocError, Global};

#[derive(Drop)]
pub(crate) struct Memory {
    pub(crate) words: Vec<u32>,
    ghost full: { vec_len words ≡ 65536 },
}

impl Memory {
    // Each word is 0.
    pub(crate) fn new(heap: Global) -> Result<Memory, AllocError>
        ensures { IfOk result (λ m. m.words.items ≡ replicate 65536 0) }
    {
        let words = vec![in heap; 0; 65_536]?;
        Ok(Memory { words })
    }

    pub(crate) fn get(&self, place: u16) -> u32
        ensures { result ≡ slice_index self.now.words.items place }
    {
        self.words[place as usize]
    }

    // So many words from there on, as far as there are.
    pub(crate) fn shown(
        &self,
        heap: Global,
        from: usize,
        count: usize,
    ) -> Result<Vec<u64>, AllocError>
        ensures { IfOk result (λ v. v.items ≡ take count (drop from self.now.words.items)) }
    {
        let words = self
            .words
            .get(from..)
            .unwrap_or_default()
            .iter()
            .take(count);
        words.copied().map(u64::from).collect(heap)
    }

    pub(crate) fn put(&mut self, place: u16, value: u32)
        ensures items { self.new.words.items ≡ slice_set self.old.words.items place value }
        ensures there { place < vec_len self.old.words }
    {
        self.words[place as usize] = value;
    }
}

// The place of the word at a number, if there is one.
pub(crate) fn place_of(number: u64) -> Result<u16, Why>
    ensures { MatchResult result (λ place. (place ≡ number) × (number < 65536)) (λ why. (why ≡ NoWord) × (65536 ≤ number)) }
{
    u16::try_from(number).map_err(|_| Why::NoWord)
}
