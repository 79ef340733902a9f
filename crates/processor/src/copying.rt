// A page of 256 numbers, copied.
ghost use Rattle.std.specs.Prelude.{◌≡◌, ℕ, ◌+◌, ◌*◌, ◌/◌, ◌%◌, ◌<◌, ◌≤◌, length, ◌==◌, slice_index};
ghost use Rattle.command.specs.Machine.{pick};

// Page `from` of the one becomes page `to` of the other.
pub(crate) fn copy_page(target: &mut [u32], to: usize, source: &[u32], from: usize)
    requires to_in_bounds { to * 256 + 256 ≤ length target.old }
    requires from_in_bounds { from * 256 + 256 ≤ length source.now }
    ensures { (a : ℕ) → slice_index target.new a ≡ pick (a / 256 == to) (slice_index source.now (from * 256 + a % 256)) (slice_index target.old a) }
{
    let page = &source[from * 256..from * 256 + 256];
    target[to * 256..to * 256 + 256].copy_from_slice(page);
}
