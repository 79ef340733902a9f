// What the bytes of a text are held as: a `u8` each, or a `u64` each, which may also hold a number that is no byte.
ghost use Rattle.std.specs.Prelude.{◌≡◌, ℕ, List, [], ◌∷◌, ◌++◌, refl};
ghost use Rattle.command.specs.Machine.{eight};
ghost use Rattle.command.specs.Written.{Puts};

use std::alloc::AllocError;

pub trait Byte: Copy {
    // The numbers of a text.
    ghost text: { List Self → List ℕ };

    fn number(self) -> u64
        ensures { text (self ∷ []) ≡ result ∷ [] };

    fn of(byte: u8) -> Self
        ensures { text (result ∷ []) ≡ byte ∷ [] };

    // Bytes behind what was written. Room is made once for all of them.
    fn put(out: &mut Vec<Self>, bytes: &[u8]) -> Result<(), AllocError>
        ensures { Puts (text out.old.items) bytes.now result (text out.new.items) }
    {
        out.reserve(bytes.len())?;
        for byte in bytes {
            out.push_reserved(Self::of(*byte));
        }
        Ok(())
    }

    // The eight bytes of a number, likewise.
    #[tactic(auto, using(crate::proofs::Writes::eight_is))]
    fn put_number(out: &mut Vec<Self>, number: u64) -> Result<(), AllocError>
        ensures { Puts (text out.old.items) (eight number) result (text out.new.items) }
    {
        Self::put(out, &number.to_be_bytes())
    }

    ghost nothing: { text [] ≡ [] };

    ghost joined: { (s t : List Self) → text (s ++ t) ≡ text s ++ text t };
}

impl Byte for u8 {
    ghost text = { λ t. t };

    ghost nothing = { refl };

    ghost joined = { λ s t. refl };

    fn number(self) -> u64 {
        u64::from(self)
    }

    fn of(byte: u8) -> u8 {
        byte
    }

    fn put(out: &mut Vec<u8>, bytes: &[u8]) -> Result<(), AllocError> {
        out.extend_from_slice(bytes)
    }
}

impl Byte for u64 {
    ghost text = { λ t. t };

    ghost nothing = { refl };

    ghost joined = { λ s t. refl };

    fn number(self) -> u64 {
        self
    }

    fn of(byte: u8) -> u64 {
        u64::from(byte)
    }
}
