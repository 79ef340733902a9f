// Listings as they are shown.
use crate::window::Listing;
use assembler::{Assembly, assemble};
use std::alloc::Global;
use std::test::Fail;

fn assembled(heap: Global, source: &str) -> Result<Assembly, Fail> {
    match assemble(heap, source.as_bytes()) {
        Ok(assembly) => Ok(assembly),
        Err(_) => Err(Fail::new("the source does not assemble")),
    }
}

#[test]
fn shows_labels_jumps_and_calls(rt: HostRuntime) -> Result<(), Fail> {
    let source = "start:\n\
                  again: in 2\n\
                  jump equal 2, 3, done\n\
                  call add\n\
                  jump not below 4, 7, again\n\
                  jump start\n\
                  done: halt\n\
                  add: reckon sum 4, 2\n\
                  jump below 4, 2, 6\n\
                  jump 99\n";
    let assembly = assembled(rt.alloc(), source)?;
    let listing = Listing::whole(assembly.program.as_slice(), assembly.labels.as_slice());
    let text = format!(in rt.alloc(); "{listing}")?;
    assert_eq!(rt;
        text.as_str(),
        "start:\n\
         again:\n\
         \x20     0  in 2                        # jumped to from 3, 4\n\
         \x20     1  jump equal 2, 3, done\n\
         \x20     2  call add\n\
         \x20     3  jump not below 4, 7, start\n\
         \x20     4  jump start\n\
         done:\n\
         \x20     5  halt                        # jumped to from 1\n\
         add:\n\
         \x20     6  reckon sum 4, 2             # jumped to from 7; called from 2\n\
         \x20     7  jump below 4, 2, add\n\
         \x20     8  jump 99\n"
    );
    Ok(())
}

#[test]
fn shows_lines_around_a_place(rt: HostRuntime) -> Result<(), Fail> {
    let source = "in 0\nin 1\nin 2\nin 3\nin 4\nin 5\nin 6\nin 7\nin 8\nin 9\nin 10\nin 11\n";
    let assembly = assembled(rt.alloc(), source)?;
    let around = Listing::around(assembly.program.as_slice(), assembly.labels.as_slice(), 8);
    let listing = around.with_arrow(9);
    let text = format!(in rt.alloc(); "{listing}")?;
    assert_eq!(rt;
        text.as_str(),
        "\x20     3  in 3\n\
         \x20     4  in 4\n\
         \x20     5  in 5\n\
         \x20     6  in 6\n\
         \x20     7  in 7\n\
         \x20     8  in 8\n\
         ->    9  in 9\n\
         \x20    10  in 10\n\
         \x20    11  in 11\n"
    );
    Ok(())
}

#[test]
fn shows_the_last_lines_where_a_place_is_past_them(rt: HostRuntime) -> Result<(), Fail> {
    let source = "in 0\nin 1\nin 2\nin 3\nin 4\ncall 6\nreturn\n";
    let assembly = assembled(rt.alloc(), source)?;
    let listing = Listing::around(assembly.program.as_slice(), assembly.labels.as_slice(), 70);
    let text = format!(in rt.alloc(); "{listing}")?;
    assert_eq!(rt;
        text.as_str(),
        "\x20     2  in 2\n\
         \x20     3  in 3\n\
         \x20     4  in 4\n\
         \x20     5  call 6\n\
         \x20     6  return                      # called from 5\n"
    );
    Ok(())
}
