ghost use Rattle.std.specs.Prelude.{◌≡◌};
ghost use Rattle.omega_hoa_expression.specs.Limits.{most_buchi_sets, most_depth, most_mentioned};
ghost use Rattle.omega_hoa_expression.specs.Limits.{most_size, past_depth, past_size};

/// The greatest depth of an expression: an atom has 1, parentheses and operators add one. A deeper one is refused with
/// [AutomatonFault::TooDeep].
pub const MOST_DEPTH: u32 = 256;

/// Just past the greatest depth: what is deeper counts as this deep.
pub const PAST_DEPTH: u32 = MOST_DEPTH + 1;

/// The most tree nodes, atoms and operators, of one expanded label or alias definition. More are refused with
/// [AutomatonFault::Expansion].
pub const MOST_SIZE: u32 = 65_536;

/// Just past the greatest size: what is larger counts as this large.
pub const PAST_SIZE: u32 = MOST_SIZE + 1;

/// The most propositions that a label may mention if it is judged whether it can be true. More are refused with
/// [TaskFault::TooManyPropositions].
pub const MOST_MENTIONED: usize = 12;

/// The most sets of a generalized Büchi kind. More are refused with [TaskFault::NotParity].
pub const MOST_BUCHI_SETS: u32 = 16;

/// States that the limits are the numbers in the definitions.
pub fn expression_limits_are_stated()
    ensures depth { MOST_DEPTH ≡ most_depth }
    ensures past_depth { PAST_DEPTH ≡ past_depth }
    ensures size { MOST_SIZE ≡ most_size }
    ensures past_size { PAST_SIZE ≡ past_size }
    ensures mentioned { MOST_MENTIONED ≡ most_mentioned }
    ensures buchi_sets { MOST_BUCHI_SETS ≡ most_buchi_sets }
{}
