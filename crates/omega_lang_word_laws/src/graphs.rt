//! Laws of the graphs of products: each call does nothing and states one law.

ghost use Rattle.omega_lang_word_laws.specs.Graphs.{GraphsAreOfProducts};

/// Shows that each graph of the pairs of two automata, as `pair_graph` returns it, is that of a product of the two,
/// also if this product is not made.
pub fn graphs_are_of_products()
    ensures { GraphsAreOfProducts }
{}
