// Fronts of a text.
ghost use Rattle.std.specs.Prelude.{◌≡◌, ℕ, Bool, take, drop};
ghost use Rattle.std.specs.List.{prefix_len};
ghost use Rattle.scan.specs.Fronts.{Tests, over};

// The longest front of bytes that pass a test, and the rest.
pub fn split_while<F: Fn(u8) -> bool>(text: &[u8], test: F) -> (&[u8], &[u8])
    requires { F.IsAlwaysCallable test }
    ensures front { (p : ℕ → Bool) → Tests p (F.post test) → result.0.now ≡ take (prefix_len p text.now) text.now }
    ensures rest { (p : ℕ → Bool) → Tests p (F.post test) → result.1.now ≡ drop (prefix_len p text.now) text.now }
{
    let end = text.iter().position(|b| !test(*b));
    text.split_at(end.unwrap_or(text.len()))
}

// Whether nothing but a comment is left of a line.
pub fn is_over(text: &[u8]) -> bool
    ensures { result ≡ over text.now }
{
    matches!(text, [] | [b'#', ..])
}
