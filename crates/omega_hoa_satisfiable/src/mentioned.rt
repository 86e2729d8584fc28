ghost use Rattle.std.specs.Prelude.{◌≡◌, ◌<◌, ◌≤◌, ◌==◌, ◌++◌, [], ◌∷◌, false, length, if◌then◌else◌, IsTrue};
ghost use Rattle.std.specs.List.{list_any};
ghost use Rattle.omega_hoa_expression.specs.Limits.{most_mentioned};
ghost use Rattle.omega_hoa_satisfiable.specs.private.Words.{mask, pattern, word_among};

use omega_hoa_expression::MOST_MENTIONED;
use std::marker::Model;

/// Up to [`MOST_MENTIONED`] propositions, each once. It takes no memory.
#[derive(Drop)]
pub(crate) struct Mentioned {
    numbers: [u32; MOST_MENTIONED],
    count: usize,
}

impl Model for Mentioned {
    ghost use Rattle.std.specs.Prelude.{List, take, ◌≤◌, ℕ};
    ghost use Rattle.omega_hoa_expression.specs.Limits.{most_mentioned};

    ghost Value = { List ℕ };

    ghost view = { λ m. take m.count m.numbers };

    ghost invariant = { λ m. m.count ≤ most_mentioned };
}

impl Mentioned {
    /// Makes an empty set of propositions.
    pub(crate) fn new() -> Self
        ensures { result ≡ [] }
    {
        Mentioned {
            numbers: [0; MOST_MENTIONED],
            count: 0,
        }
    }

    /// Makes the set of the propositions below six.
    pub(crate) fn first_six() -> Self
        ensures { result ≡ 0 ∷ 1 ∷ 2 ∷ 3 ∷ 4 ∷ 5 ∷ [] }
    {
        let mut numbers = [0; MOST_MENTIONED];
        numbers[1] = 1;
        numbers[2] = 2;
        numbers[3] = 3;
        numbers[4] = 4;
        numbers[5] = 5;
        Mentioned { numbers, count: 6 }
    }

    /// Makes the set of the propositions below twelve.
    pub(crate) fn first_twelve() -> Self
        ensures { result ≡ 0 ∷ 1 ∷ 2 ∷ 3 ∷ 4 ∷ 5 ∷ 6 ∷ 7 ∷ 8 ∷ 9 ∷ 10 ∷ 11 ∷ [] }
    {
        Mentioned {
            numbers: [0, 1, 2, 3, 4, 5, 6, 7, 8, 9, 10, 11],
            count: 12,
        }
    }

    /// Returns the number of propositions.
    pub(crate) fn len(&self) -> usize
        ensures len { result ≡ length self.now }
        ensures limit { length self.now ≤ most_mentioned }
    {
        self.count
    }

    /// Appends a proposition, unless it is there. Returns false if there is no room for it.
    pub(crate) fn add(&mut self, number: u32) -> bool
        ensures added { IsTrue result
            → self.new ≡ (if list_any (λ other. other == number) self.old then self.old
            else self.old ++ number ∷ []) }
        ensures full { result ≡ false → (list_any (λ other. other == number) self.old ≡ false)
            × (length self.old ≡ most_mentioned) }
    {
        if self.has(number) {
            return true;
        }
        if self.count == MOST_MENTIONED {
            return false;
        }
        self.numbers[self.count] = number;
        self.count += 1;
        true
    }

    /// Whether the proposition `number` is there.
    fn has(&self, number: u32) -> bool
        ensures { result ≡ list_any (λ other. other == number) self.now }
    {
        self.numbers[..self.count]
            .iter()
            .any(|other| *other == number)
    }

    /// Returns the word of the proposition `number` under the valuations of `block`.
    pub(crate) fn word(&self, block: u64, number: u32) -> u64
        ensures { result ≡ word_among block 0 self.now number }
    {
        word_in(&self.numbers[..self.count], block, number)
    }
}

/// Returns the word of the proposition `number` among `numbers`.
fn word_in(numbers: &[u32], block: u64, number: u32) -> u64
    requires { length numbers.now ≤ most_mentioned }
    ensures { result ≡ word_among block 0 numbers.now number }
{
    for (place, other) in numbers.iter().enumerate() {
        if *other == number {
            return pattern(block, place);
        }
    }
    0
}

/// Returns the word of the proposition at `place`.
fn pattern(block: u64, place: usize) -> u64
    requires { place < most_mentioned }
    ensures { result ≡ pattern block place }
{
    if place < 6 {
        mask(place)
    } else if (block >> (place - 6)) & 1 == 1 {
        u64::MAX
    } else {
        0
    }
}

/// Returns the word whose bits count up at `place`, which is below six.
pub(crate) fn mask(place: usize) -> u64
    ensures { result ≡ mask place }
{
    match place {
        0 => 0xAAAA_AAAA_AAAA_AAAA,
        1 => 0xCCCC_CCCC_CCCC_CCCC,
        2 => 0xF0F0_F0F0_F0F0_F0F0,
        3 => 0xFF00_FF00_FF00_FF00,
        4 => 0xFFFF_0000_FFFF_0000,
        _ => 0xFFFF_FFFF_0000_0000,
    }
}
