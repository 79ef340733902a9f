// The parts of a command, each written behind what was written: bytes, numbers.
ghost use Rattle.std.specs.Prelude.{◌≡◌, ◌++◌};
ghost use Rattle.command.specs.Machine.{eight};
ghost use Rattle.command.specs.Written.{Puts};

use crate::byte::Byte;
use std::alloc::AllocError;

// The bytes of a number, the highest first.
pub fn eight_bytes(number: u64) -> [u64; 8]
    ensures { result ≡ eight number }
{
    number.to_be_bytes().map(u64::from)
}

pub(crate) fn put<B: Byte>(out: &mut Vec<B>, bytes: &[u8]) -> Result<(), AllocError>
    ensures { Puts (B.text out.old.items) bytes.now result (B.text out.new.items) }
{
    B::put(out, bytes)
}

pub(crate) fn put_number<B: Byte>(out: &mut Vec<B>, number: u64) -> Result<(), AllocError>
    ensures { Puts (B.text out.old.items) (eight number) result (B.text out.new.items) }
{
    B::put_number(out, number)
}

// Some bytes, and a number behind them.
pub(crate) fn put_with<B: Byte>(
    out: &mut Vec<B>,
    bytes: &[u8],
    number: u64,
) -> Result<(), AllocError>
    ensures { Puts (B.text out.old.items) (bytes.now ++ eight number) result (B.text out.new.items) }
{
    put(out, bytes)?;
    put_number(out, number)
}
