//! Tarjan's search for the strongly connected components of a graph, and tables of numbers that are read and written at
//! any index. Of the search only its safety and its end are proved.
#![tactic(auto)]

mod component_search;
mod number_table;
mod numbers;
mod searched_graph;

pub use component_search::ComponentSearch;
pub use number_table::{NONE, NumberTable};
pub use numbers::{number_of, numbers_below};
pub use searched_graph::SearchedGraph;
