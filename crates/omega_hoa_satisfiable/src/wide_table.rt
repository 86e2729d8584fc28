//! Truth tables of labels that mention none but the first twelve propositions.

ghost use Rattle.std.specs.Prelude.{◌≡◌, ◌≤◌, ◌↔◌, false, get_or};
ghost use Rattle.std.specs.Prelude.{IfOk, IfSome, IsOkUnless, IsTrue};
ghost use Rattle.std.specs.List.{list_all};
ghost use Rattle.omega_hoa_expression.specs.Limits.{most_depth};
ghost use Rattle.omega_hoa_label.specs.Label.{LabelTree, conjunction, constant, disjunction};
ghost use Rattle.omega_hoa_label.specs.Postfix.{postfix};
ghost use Rattle.omega_hoa_satisfiable.specs.Literals.{AreLiteralsOf};
ghost use Rattle.omega_hoa_satisfiable.specs.Satisfiable.{IsSatisfiable};
ghost use Rattle.omega_hoa_satisfiable.specs.Tables.{IsWideTable, MentionsLow};
ghost use Rattle.omega_hoa_satisfiable.specs.private.ReadCubes.{AreTrueWords};
ghost use Rattle.omega_hoa_satisfiable.specs.private.Words.{is_low, peak};
ghost use Rattle.omega_hoa_satisfiable.specs.private.WideWords.{AreNodesOf, AreWords};

use crate::cube_words::{add_cube, words_by_cubes};
use crate::literal_lanes::{lanes_in, low_lanes};
use crate::literals::Literals;
use crate::mentioned::Mentioned;
use crate::satisfying::word_of;
use crate::tables::bits_in_both;
use omega_hoa_expression::MOST_MENTIONED;
use omega_hoa_label::{Label, LabelNode, ROOM};
use omega_text::Refusal;
use std::alloc::Global;

/// How many words have the valuations of twelve propositions.
const WORDS: u64 = 64;

/// The truth table of a label over the propositions below twelve. Bit k of word j says whether the label is true if
/// exactly the propositions hold whose bit of 64 j + k is set.
#[derive(Debug)]
pub struct WideTable {
    words: Vec<u64>,
}

impl Drop for WideTable {
    fn drop(self) {
        let WideTable { words: _ } = self;
    }
}

impl WideTable {
    /// Returns the truth table of `label`, or none if it mentions a proposition from twelve on. Takes one pass over a
    /// label that is a disjunction of conjunctions of literals, or the negation of one, and 64 steps for each of these;
    /// and 64 passes over another label.
    pub fn of(alloc: Global, label: &Label) -> Result<Option<WideTable>, Refusal>
        ensures table { IfOk result (λ table. IfSome table (IsWideTable label.now)) }
        ensures memory { IsOkUnless result Refusal.Memory }
    {
        if !mentions_low(label) {
            return Ok(None);
        }
        let mut room = ROOM;
        let words = words_of(alloc, label.nodes(&mut room))?;
        Ok(Some(WideTable { words }))
    }

    /// Returns the truth table of `label` if it is a disjunction of conjunctions of literals over the first twelve
    /// propositions, or the negation of one; else none. Takes one pass over the label, and 64 steps for each of these.
    pub(crate) fn by_cubes(alloc: Global, label: &Label) -> Result<Option<WideTable>, Refusal>
        ensures table { IfOk result (λ table. IfSome table (IsWideTable label.now)) }
        ensures memory { IsOkUnless result Refusal.Memory }
    {
        if !mentions_low(label) {
            return Ok(None);
        }
        let mut room = ROOM;
        let found = words_by_cubes(alloc, label.nodes(&mut room))?;
        match found {
            Some(words) => Ok(Some(WideTable { words })),
            None => Ok(None),
        }
    }

    /// Makes the truth table of a label that is never true.
    pub fn never(alloc: Global) -> Result<WideTable, Refusal>
        ensures table { IfOk result (IsWideTable (constant false)) }
        ensures memory { IsOkUnless result Refusal.Memory }
    {
        let words = vec![in alloc; 0u64; WORDS as usize]?;
        Ok(WideTable { words })
    }

    /// Adds the valuations at which `label` is true, so that this is the truth table of its disjunction with the label
    /// before, and returns true, only if both can't be true together. Returns false otherwise, and if `label` is no
    /// conjunction of literals over the first twelve propositions; that it does so in no other case, and what the table
    /// is then, is not promised. Linear in the label, and takes no memory.
    pub fn add_apart(&mut self, label: &Label) -> bool
        requires { (one : LabelTree) × IsWideTable one self.old }
        ensures apart { IsTrue result → (one : LabelTree) → IsWideTable one self.old
            → IsSatisfiable (conjunction one label.now) → ⊥ }
        ensures added { IsTrue result → (one : LabelTree) → IsWideTable one self.old
            → IsWideTable (disjunction one label.now) self.new }
    {
        if !mentions_low(label) {
            return false;
        }
        match Literals::of(label) {
            Some(literals) => self.add_literals_apart(literals),
            None => false,
        }
    }

    /// Adds the valuations at which all literals hold, as `add_apart` does.
    fn add_literals_apart(&mut self, literals: Literals) -> bool
        requires { (one : LabelTree) × IsWideTable one self.old }
        ensures apart { IsTrue result → (one another : LabelTree) → IsWideTable one self.old
            → MentionsLow another → AreLiteralsOf another literals
            → IsSatisfiable (conjunction one another) → ⊥ }
        ensures added { IsTrue result → (one another : LabelTree) → IsWideTable one self.old
            → MentionsLow another → AreLiteralsOf another literals
            → IsWideTable (disjunction one another) self.new }
    {
        if self.meets_literals(literals) {
            return false;
        }
        add_cube(self.words.as_mut_slice(), literals);
        true
    }

    /// Whether the label can be true.
    pub(crate) fn can_hold(&self) -> bool
        ensures { (tree : LabelTree) → IsWideTable tree self.now → IsTrue result ↔ IsSatisfiable tree }
    {
        self.meets(self)
    }

    /// Whether two labels can be true together, by the truth tables of both.
    pub fn meets(&self, other: &WideTable) -> bool
        ensures { (one : LabelTree) (another : LabelTree) → IsWideTable one self.now
            → IsWideTable another other.now → IsTrue result ↔ IsSatisfiable (conjunction one another) }
    {
        for block in 0..WORDS {
            let word = word_at(self.words.as_slice(), block);
            if bits_in_both(word, word_at(other.words.as_slice(), block)) != 0 {
                return true;
            }
        }
        false
    }

    /// Whether the label of this table and `label` can be true together, or none if `label` mentions a proposition from
    /// twelve on. Takes no memory. A conjunction of literals is gone through a few times, and another label at most 64
    /// times.
    pub fn meets_label(&self, label: &Label) -> Option<bool>
        ensures { IfSome result (λ possible. (one : LabelTree) → IsWideTable one self.now
            → IsTrue possible ↔ IsSatisfiable (conjunction one label.now)) }
    {
        if !mentions_low(label) {
            return None;
        }
        if let Some(literals) = Literals::of(label) {
            return Some(self.meets_literals(literals));
        }
        let mut room = ROOM;
        Some(self.meets_nodes(label.nodes(&mut room)))
    }

    /// Whether the label of this table and one of `literals` can be true together.
    fn meets_literals(&self, literals: Literals) -> bool
        ensures { (one : LabelTree) (another : LabelTree) → IsWideTable one self.now → MentionsLow another
            → AreLiteralsOf another literals → IsTrue result ↔ IsSatisfiable (conjunction one another) }
    {
        let lanes = low_lanes(literals);
        for block in 0..WORDS {
            let word = word_at(self.words.as_slice(), block);
            if bits_in_both(word, lanes_in(literals, lanes, block)) != 0 {
                return true;
            }
        }
        false
    }

    /// Whether the label of this table and that of `nodes`, in postfix order, can be true together.
    fn meets_nodes(&self, nodes: &[LabelNode]) -> bool
        requires { peak 0 nodes.now ≤ most_depth }
        ensures { (one : LabelTree) (another : LabelTree) → IsWideTable one self.now → MentionsLow another
            → AreNodesOf nodes.now another → IsTrue result ↔ IsSatisfiable (conjunction one another) }
    {
        let low = Mentioned::first_twelve();
        for block in 0..WORDS {
            let word = word_at(self.words.as_slice(), block);
            if bits_in_both(word, word_of(nodes, &low, block)) != 0 {
                return true;
            }
        }
        false
    }
}

/// Returns the word at `block`, 0 past the last.
fn word_at(words: &[u64], block: u64) -> u64
    ensures { result ≡ get_or words.now block 0 }
{
    words.get(block as usize).copied().unwrap_or(0)
}

/// Returns the words of the truth table of the label of `nodes`, in postfix order: by its cubes, if it is made of them
/// alone.
fn words_of(alloc: Global, nodes: &[LabelNode]) -> Result<Vec<u64>, Refusal>
    requires { peak 0 nodes.now ≤ most_depth }
    ensures words { IfOk result (λ words. (tree : LabelTree) → MentionsLow tree
        → nodes.now ≡ postfix tree → AreTrueWords tree words.items) }
    ensures memory { IsOkUnless result Refusal.Memory }
{
    let found = words_by_cubes(alloc, nodes)?;
    match found {
        Some(words) => Ok(words),
        None => {
            let words = words_by_passes(alloc, nodes)?;
            Ok(words)
        }
    }
}

/// Returns the words of the truth table of the label of `nodes`, in postfix order, by a pass over them for each.
fn words_by_passes(alloc: Global, nodes: &[LabelNode]) -> Result<Vec<u64>, Refusal>
    requires { peak 0 nodes.now ≤ most_depth }
    ensures words { IfOk result (λ words. AreWords nodes.now words.items 64) }
    ensures memory { IsOkUnless result Refusal.Memory }
{
    let low = Mentioned::first_twelve();
    let mut words = Vec::with_capacity(alloc, WORDS as usize)?;
    for block in 0..WORDS {
        words.push(word_of(nodes, &low, block))?;
    }
    Ok(words)
}

/// Whether `label` mentions no proposition from twelve on.
fn mentions_low(label: &Label) -> bool
    ensures { IsTrue result → MentionsLow label.now }
{
    let mut room = ROOM;
    all_low(label.nodes(&mut room))
}

/// Whether no node is a proposition from twelve on.
fn all_low(nodes: &[LabelNode]) -> bool
    ensures { result ≡ list_all is_low nodes.now }
{
    nodes.iter().all(|node| is_low(*node))
}

/// Whether `node` is no proposition from twelve on.
fn is_low(node: LabelNode) -> bool
    ensures { result ≡ is_low node }
{
    match node {
        LabelNode::Proposition(number) => (number as usize) < MOST_MENTIONED,
        _ => true,
    }
}
