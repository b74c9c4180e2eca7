// An entry of a table: the term words of its equation, and the handles of its yes part and its no part. Not the store's entry with another question: the
// words of each are read in their own order, and definitions name the fields.
#[derive(Clone, Copy, PartialEq, Eq)]
pub struct Entry {
    pub left: u32,
    pub right: u32,
    pub yes: u32,
    pub no: u32,
}
