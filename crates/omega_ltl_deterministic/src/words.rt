//! Words of tables of letters: the letter l of a table is bit l % 64 of the word l / 64, and bit i of a letter is the
//! truth value of the name i.

/// How many names have as many letters as a word has bits.
pub(crate) const NAMES_OF_A_WORD: u32 = 6;

/// Returns the word at `index` of the table of the letters at which a name holds.
pub(crate) fn name_word(name: u32, index: usize) -> u64 {
    match name {
        0 => 0xaaaa_aaaa_aaaa_aaaa,
        1 => 0xcccc_cccc_cccc_cccc,
        2 => 0xf0f0_f0f0_f0f0_f0f0,
        3 => 0xff00_ff00_ff00_ff00,
        4 => 0xffff_0000_ffff_0000,
        5 => 0xffff_ffff_0000_0000,
        _ if name < 70 && index >> (name - NAMES_OF_A_WORD) & 1 == 1 => u64::MAX,
        _ => 0,
    }
}
