/// The place of the flag for top, or of an entry, in a row of words: its word, the number of bits after it in that
/// word, its number of bits, and the greatest number that it holds.
#[derive(Clone, Copy)]
pub(crate) struct Field {
    pub(crate) word: u32,
    pub(crate) shift: u32,
    pub(crate) bits: u32,
    pub(crate) limit: u32,
}
