// What numbers stand for, and how large they may be.
ghost use Rattle.std.specs.Prelude.{◌≡◌};
ghost use Rattle.prompt.specs.Numbers.{most_of};

#[derive(Clone, Copy, Debug, PartialEq, Eq)]
pub enum Quantity {
    Steps,
    // What is to come in.
    Value,
    Address,
    // The first to be shown of what went out.
    First,
    Count,
}

impl Quantity {
    // The largest that is allowed.
    pub(crate) fn most(self) -> u64
        ensures { result ≡ most_of self }
    {
        match self {
            Quantity::Steps => 1_000_000_000,
            Quantity::Value => 0xffff_ffff,
            Quantity::Address => 65_535,
            Quantity::First => u64::MAX,
            Quantity::Count => 4_096,
        }
    }
}
