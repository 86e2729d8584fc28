//! Laws of products: each call does nothing and states one law.

ghost use Rattle.omega_lang_word_laws.specs.Products.{ProductsAreOne, ProductsMeet, ProductsMeetByName};

/// Shows that the product of two automata without universal branching accepts a word over the propositions of both
/// exactly if each accepts its part of the word.
pub fn products_meet()
    ensures { ProductsMeet }
{}

/// Shows that the product of two automata without universal branching accepts a word over names exactly if both do.
pub fn products_meet_by_name()
    ensures { ProductsMeetByName }
{}

/// Shows that two automata have one product, so that `product` can return no other.
pub fn products_are_one()
    ensures { ProductsAreOne }
{}
