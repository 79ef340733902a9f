// The labels of places.
ghost use Rattle.std.specs.Prelude.{◌≡◌, Some};
ghost use Rattle.std.specs.Option.{option_map};
ghost use Rattle.assembler.specs.Instructions.{labels_of};
ghost use Rattle.listing.specs.Labels.{name_of, place_text, headings};

use assembler::Label;
use std::fmt;

// The first label of a place, if it has one.
fn label_of(labels: &[Label], place: usize) -> Option<&str>
    ensures { option_map (λ x. x.now) result ≡ name_of (labels_of labels.now) place }
{
    let found = labels
        .iter()
        .find(|label| usize::from(label.place) == place)?;
    Some(found.name.as_str())
}

// A place by its label, or else by its number.
#[derive(Clone, Copy)]
pub(crate) struct Place<'a> {
    pub labels: &'a [Label],
    pub number: usize,
}

impl fmt::Display for Place<'_> {
    ghost output = { λ p. Some (place_text (labels_of p.labels.now) p.number) };

    fn fmt<W: fmt::Write>(&self, f: &mut fmt::Formatter<W>) -> fmt::Result {
        match label_of(self.labels, self.number) {
            Some(label) => f.write_str(label),
            None => write!(f, "{}", self.number),
        }
    }
}

// All labels of a place, each on a line of its own.
#[derive(Clone, Copy)]
pub(crate) struct Headings<'a> {
    pub labels: &'a [Label],
    pub place: usize,
}

impl fmt::Display for Headings<'_> {
    ghost output = { λ h. Some (headings (labels_of h.labels.now) h.place) };

    fn fmt<W: fmt::Write>(&self, f: &mut fmt::Formatter<W>) -> fmt::Result {
        for label in self.labels {
            if usize::from(label.place) == self.place {
                let name = label.name.as_str();
                write!(f, "{name}:\n")?;
            }
        }
        Ok(())
    }
}
