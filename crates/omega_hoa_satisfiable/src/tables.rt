//! Truth tables of labels that mention none but the first six propositions.

ghost use Rattle.std.specs.Prelude.{◌≡◌, ◌↔◌, [], ◌∷◌, bit_and, IfSome, IsTrue};
ghost use Rattle.std.specs.List.{list_all};
ghost use Rattle.omega_hoa_label.specs.Label.{LabelTree, conjunction};
ghost use Rattle.omega_hoa_satisfiable.specs.Satisfiable.{IsSatisfiable};
ghost use Rattle.omega_hoa_satisfiable.specs.Tables.{IsTruthTable, MentionsFew};
ghost use Rattle.omega_hoa_satisfiable.specs.private.Words.{is_few, word_among, word_of as word_of_tree};

use crate::mentioned::Mentioned;
use crate::satisfying::word_of;
use omega_hoa_label::{Label, LabelNode, ROOM};

/// The most propositions of a truth table.
const MOST_TABLED: u32 = 6;

/// The truth table of a label over the propositions below six. Bit k of it says whether the label is true if exactly
/// the propositions hold whose bit of k is set.
#[derive(Clone, Copy, Debug, PartialEq, Eq)]
pub struct TruthTable {
    bits: u64,
}

impl TruthTable {
    /// Returns the truth table of `label`, or none if it mentions a proposition from six on. Linear in the label.
    pub fn of(label: &Label) -> Option<TruthTable>
        ensures { IfSome result (IsTruthTable label.now) }
    {
        if mentions_few(label) {
            Some(TruthTable {
                bits: word_of_six(label),
            })
        } else {
            None
        }
    }

    /// Whether two labels can be true together, by the truth tables of both.
    pub fn meets(self, other: TruthTable) -> bool
        ensures { (one : LabelTree) (another : LabelTree) → IsTruthTable one self
            → IsTruthTable another other → IsTrue result ↔ IsSatisfiable (conjunction one another) }
    {
        let shared = bits_in_both(self.bits, other.bits);
        if shared == 0 {
            return false;
        }
        true
    }
}

/// Returns the bits that are set in both words.
pub(crate) fn bits_in_both(one: u64, other: u64) -> u64
    ensures { result ≡ bit_and one other }
{
    one & other
}

/// Whether `label` mentions no proposition from six on.
fn mentions_few(label: &Label) -> bool
    ensures { IsTrue result → MentionsFew label.now }
{
    let mut room = ROOM;
    all_few(label.nodes(&mut room))
}

/// Whether no node is a proposition from six on.
fn all_few(nodes: &[LabelNode]) -> bool
    ensures { result ≡ list_all is_few nodes.now }
{
    nodes.iter().all(|node| is_few(*node))
}

/// Whether `node` is no proposition from six on.
fn is_few(node: LabelNode) -> bool
    ensures { result ≡ is_few node }
{
    match node {
        LabelNode::Proposition(number) => number < MOST_TABLED,
        _ => true,
    }
}

/// Returns the word of `label` under the 64 valuations of the propositions below six.
fn word_of_six(label: &Label) -> u64
    ensures { result ≡ word_of_tree (word_among 0 0 (0 ∷ 1 ∷ 2 ∷ 3 ∷ 4 ∷ 5 ∷ [])) label.now }
{
    let mut room = ROOM;
    let nodes = label.nodes(&mut room);
    word_of(nodes, &Mentioned::first_six(), 0)
}
