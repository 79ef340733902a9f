// The programs that bytes are.
ghost use Rattle.std.specs.Prelude.{map, refl};
ghost use Rattle.std.proofs.lemmas.List.{map-append};

use crate::programs::program_in;
use command::byte::Byte;
use command::writing;
use listing::Listing;
use spelling::write_program;
use std::test::Fail;

// Bytes as a caller may hold them, with no quicker way to put them than the trait's.
#[derive(Clone, Copy)]
struct Held(u8);

impl Byte for Held {
    ghost text = { map (λ held. held.0) };

    ghost nothing = { refl };

    ghost joined = { map-append (λ held. held.0) };

    fn number(self) -> u64 {
        u64::from(self.0)
    }

    fn of(byte: u8) -> Held {
        Held(byte)
    }
}

#[test]
fn reads_bytes_that_spell_a_program(rt: HostRuntime) -> Result<(), Fail> {
    // Two instructions: a jump to place 1, and a halt.
    let bytes = [0, 0, 0, 0, 0, 0, 0, 2, 5, 0, 0, 0, 0, 0, 0, 0, 1, 11];
    let Ok(assembly) = program_in(rt.alloc(), &bytes) else {
        return Err(Fail::new("the bytes are not read"));
    };
    let listing = Listing::whole(assembly.program.as_slice(), assembly.labels.as_slice());
    let text = format!(in rt.alloc(); "{listing}")?;
    assert_eq!(rt;
        text.as_str(),
        "\x20     0  jump 1\n\
         \x20     1  halt                        # jumped to from 0\n"
    );
    Ok(())
}

#[test]
fn writes_a_program_as_it_is_read(rt: HostRuntime) -> Result<(), Fail> {
    let bytes = [0, 0, 0, 0, 0, 0, 0, 2, 5, 0, 0, 0, 0, 0, 0, 0, 1, 11];
    let Ok(assembly) = program_in(rt.alloc(), &bytes) else {
        return Err(Fail::new("the bytes are not read"));
    };
    let program = assembly.program.as_slice();
    let narrow = write_program(rt.alloc(), program)?;
    let wide = writing::write_program::<u64>(rt.alloc(), program)?;
    assert!(rt; narrow.as_slice() == &bytes[..]);
    assert!(rt; wide.iter().eq(bytes.map(u64::from).iter()));
    Ok(())
}

#[test]
fn writes_a_program_for_bytes_of_a_callers_own(rt: HostRuntime) -> Result<(), Fail> {
    let bytes = [0, 0, 0, 0, 0, 0, 0, 2, 5, 0, 0, 0, 0, 0, 0, 0, 1, 11];
    let Ok(assembly) = program_in(rt.alloc(), &bytes) else {
        return Err(Fail::new("the bytes are not read"));
    };
    let held = writing::write_program::<Held>(rt.alloc(), assembly.program.as_slice())?;
    assert!(rt; held.iter().map(|held| held.0).eq(bytes.iter().copied()));
    Ok(())
}

#[test]
fn takes_other_bytes_for_source_text(rt: HostRuntime) -> Result<(), Fail> {
    let Err(failure) = program_in(rt.alloc(), b"in 2\nleap 3\n") else {
        return Err(Fail::new("a text with a mistake is read"));
    };
    let text = format!(in rt.alloc(); "{failure}")?;
    assert_eq!(rt;
        text.as_str(),
        "line 2, column 1: found 'leap', expected an instruction"
    );
    Ok(())
}
