//! A formula, and how it is kept.

ghost use Rattle.std.specs.Prelude.{◌≡◌, ◌<◌, IfErr, IfOk, length};
ghost use Rattle.omega_ltl_formula.specs.Building.{IsFormulaRefusal};

use crate::limits::{MOST_FORMULA_DEPTH, MOST_FORMULA_NAMES, MOST_FORMULA_NODES};
use crate::measures::measure_of;
use crate::node::FormulaNode;
use omega_text::{AutomatonFault, ByteString, Refusal, Seq, TaskFault};
use std::alloc::Global;
use std::marker::Model;

/// A formula of linear temporal logic: at most 256 deep, with at most 4,096 atoms and operators and at most 64 names.
///
/// It is a table of nodes. The operands of a node stand before it, so that one loop over the table sees the parts of
/// each node first, and nothing recurses. Equal parts may be one node.
#[derive(Debug)]
pub struct Formula {
    pub(crate) names: Seq<ByteString>,
    pub(crate) nodes: Seq<FormulaNode>,
    pub(crate) root: usize,
}

impl Drop for Formula {
    fn drop(self) {
        let Formula {
            names: _,
            nodes: _,
            root: _,
        } = self;
    }
}

impl Model for Formula {
    ghost use Rattle.omega_ltl_formula.specs.Table.{IsFormula, NumberedFormula, numbered};

    ghost Value = { NumberedFormula };

    ghost view = { λ f. numbered f.names f.nodes f.root };

    ghost invariant = { λ f. IsFormula (numbered f.names f.nodes f.root) };
}

impl Formula {
    ghost use Rattle.omega_ltl_formula.specs.Table.{IsFormula, IsTable, numbered};

    /// Returns the formula that the node `root` of a table is. Takes linear time in the nodes.
    ///
    /// Fails with [AutomatonFault::TooDeep] if the formula is over 256 deep. Otherwise fails with
    /// [TaskFault::TooLarge] if it has over 4,096 atoms and operators, or if there are over 4,096 nodes or 64 names.
    pub(crate) fn of_table(
        alloc: Global,
        names: Vec<ByteString>,
        nodes: Vec<FormulaNode>,
        root: usize,
    ) -> Result<Formula, Refusal>
        requires table { IsTable (record { names = names.items; nodes = nodes.items }) }
        requires rooted { root < length nodes.items }
        ensures ok { IfOk result (λ formula. formula ≡ numbered names.items nodes.items root) }
        ensures refused { IfErr result (IsFormulaRefusal (numbered names.items nodes.items root)) }
    {
        let measure = measure_of(alloc, nodes.as_slice(), root)?;
        if measure.depth as usize > MOST_FORMULA_DEPTH {
            return Err(Refusal::Automaton(AutomatonFault::TooDeep));
        }
        if measure.size as usize > MOST_FORMULA_NODES
            || nodes.len() > MOST_FORMULA_NODES
            || names.len() > MOST_FORMULA_NAMES
        {
            return Err(Refusal::Task(TaskFault::TooLarge));
        }
        Ok(Formula {
            names: Seq::from_vec(names),
            nodes: Seq::from_vec(nodes),
            root,
        })
    }

    /// Returns the names of its propositions, each once, by their numbers.
    pub fn names(&self) -> &[ByteString]
        ensures { result.now ≡ self.now.table.names }
    {
        self.names.as_slice()
    }

    /// Returns its nodes, by their numbers: the operands of a node stand before it.
    pub fn nodes(&self) -> &[FormulaNode]
        ensures { result.now ≡ self.now.table.nodes }
    {
        self.nodes.as_slice()
    }

    /// Returns the number of the node that the formula is.
    pub fn root(&self) -> usize
        ensures { result ≡ self.now.root }
    {
        self.root
    }

    /// States what each formula keeps: the order of its nodes, and the limits. Does nothing: it hands on the type's
    /// invariant.
    pub fn keeps_limits(&self)
        ensures { IsFormula self.now }
    {
        // A field is read, since only then a proof knows the invariant.
        let _root = self.root;
    }
}
