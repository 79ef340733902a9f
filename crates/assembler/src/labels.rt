// Labels: names of places.
ghost use Rattle.std.specs.Prelude.{◌≡◌};
ghost use Rattle.assembler.specs.Instructions.{labels_of, place_of};

use crate::names::is_word;

// A place's name.
#[derive(Drop)]
pub struct Label {
    pub name: String,
    pub place: u16,
}

// The place of a label, if there is one of that name. No map: labels are shown in order, and the first of a place names it.
pub(crate) fn place_of(labels: &[Label], name: &[u8]) -> Option<u16>
    ensures { result ≡ place_of (labels_of labels.now) name.now }
{
    let named = labels
        .iter()
        .find(|label| is_word(label.name.as_bytes(), name));
    named.map(|label| label.place)
}
