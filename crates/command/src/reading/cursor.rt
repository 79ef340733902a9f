// What is left of a text while it is read.
#[derive(Clone, Copy)]
pub struct Cursor<'t, B = u64> {
    pub rest: &'t [B],
}
