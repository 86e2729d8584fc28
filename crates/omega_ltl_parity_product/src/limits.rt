ghost use Rattle.std.specs.Prelude.{◌≡◌};
ghost use Rattle.omega_ltl_parity_product.specs.Limits.{most_colours};

/// The most colours of all leaves together that tell words apart.
pub const MOST_COLOURS: u32 = 60;

/// The most nodes of a Zielonka tree.
pub(crate) const MOST_TREE_NODES: usize = 2_000;

/// The most sets of marks that are compared to find the children of a node of a Zielonka tree.
pub(crate) const MOST_TREE_SETS: usize = 20_000;

/// The most words of letters while the edges of one state are found.
pub(crate) const MOST_PART_WORDS: usize = 67_108_864;

/// States the limit in numbers.
pub fn product_limits_are_stated()
    ensures { MOST_COLOURS ≡ most_colours }
{}
