//! The items of a header.

mod content;
mod item;
mod known;
mod name;

pub(crate) use item::ItemSyntax;
