use crate::player::Player;
use omega_text::Seq;

/// A node as a game text specifies it.
#[derive(Debug)]
pub struct NodeSpec {
    /// The identifier, at most 2,147,483,647.
    pub id: u32,
    /// The priority, at most 2,147,483,647.
    pub priority: u32,
    /// The player who chooses the successor.
    pub owner: Player,
    /// The identifiers of the successors in the order listed, repeats kept.
    pub successors: Seq<u32>,
    /// The name without its quotes, or none. An empty name differs from none.
    pub name: Option<Seq<u8>>,
}

impl Drop for NodeSpec {
    fn drop(self) {
        let NodeSpec {
            id: _,
            priority: _,
            owner: _,
            successors: _,
            name: _,
        } = self;
    }
}
