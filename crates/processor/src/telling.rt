// What the emulator tells of words and of what went out, into a lent row.
ghost use Rattle.std.specs.Prelude.{◌≡◌, ℕ, ◌+◌, ◌<◌, ◌≤◌, ◌++◌, length, drop, slice_index};
ghost use Rattle.processor.specs.Telling.{told_outs};

fn word_or_zero(items: &[u32], a: u64) -> u64
    ensures { result ≡ slice_index items.now a }
{
    items.get(a as usize).map_or(0, |word| u64::from(*word))
}

// The words from there on; past the last they are 0.
pub(crate) fn tell_words(items: &[u32], from: u64, seen: &mut [u64])
    requires { length items.now ≡ 65536 }
    ensures { (i : ℕ) → i < length seen.new → slice_index seen.new i ≡ slice_index items.now (from + i) }
{
    for (i, word) in seen.iter_mut().enumerate() {
        *word = word_or_zero(items, from.saturating_add(i as u64));
    }
}

// Of the first `put` of the log those from there on, as many as there is room for; how many is answered, and the rest of the row stays.
pub(crate) fn tell_outs(log: &[u32], put: usize, from: u64, seen: &mut [u64]) -> usize
    ensures count { result ≡ length (told_outs log.now put from (length seen.old)) }
    ensures row { seen.new ≡ told_outs log.now put from (length seen.old) ++ drop result seen.old }
{
    let out = &log[..put.min(log.len())];
    let rest = &out[(from as usize).min(out.len())..];
    let told = &rest[..seen.len().min(rest.len())];
    // By index: what holds of a loop over both at once speaks of the places that it has lent, and not of the row.
    for (i, number) in told.iter().enumerate() {
        seen[i] = u64::from(*number);
    }
    told.len()
}
