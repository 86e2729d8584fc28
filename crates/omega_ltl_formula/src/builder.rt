//! How a formula is made, part by part.

ghost use Rattle.std.specs.Prelude.{◌≡◌, ◌<◌, Some, IfErr, IfOk, IsOkUnless, OnErr, OnOk, length, slice_get};
ghost use Rattle.omega_ltl_formula.specs.Building.{Adds, IsFormulaRefusal, empty_table, with_name};
ghost use Rattle.omega_ltl_formula.specs.Formula.{binary, constant, name, unary};
ghost use Rattle.omega_ltl_formula.specs.Table.{numbered, tree_at};
ghost use Rattle.omega_ltl_formula.specs.private.Keys.{IsWith};

use crate::formula::Formula;
use crate::names::{copy_of_names, number_of_name};
use crate::node::FormulaNode;
use crate::operators::{BinaryOperator, UnaryOperator};
use indexmap::IndexSet;
use omega_text::Refusal;
use std::alloc::Global;
use std::marker::Model;

/// A table of nodes that grows, with no limit, until [`finish`](FormulaBuilder::finish) judges one of its formulas.
///
/// Parts come before what they are parts of, and each call returns the number of the node that is the formula asked
/// for: a new one, or an equal one that is there.
pub struct FormulaBuilder {
    pub(crate) names: IndexSet<Vec<u8>>,
    pub(crate) nodes: IndexSet<FormulaNode>,
}

impl Drop for FormulaBuilder {
    fn drop(self) {
        let FormulaBuilder { names: _, nodes: _ } = self;
    }
}

impl Model for FormulaBuilder {
    ghost use Rattle.omega_ltl_formula.specs.Table.{FormulaTable, IsTable};
    ghost use Rattle.omega_ltl_formula.specs.private.Keys.{table_of};

    ghost Value = { FormulaTable };

    ghost view = { λ b. table_of b.names.keys b.nodes.keys };

    ghost invariant = { λ b. IsTable (table_of b.names.keys b.nodes.keys) };
}

impl FormulaBuilder {
    /// Returns a table without nodes. Takes no memory.
    pub fn new(alloc: Global) -> Self
        ensures { result ≡ empty_table }
    {
        FormulaBuilder {
            names: IndexSet::new(alloc),
            nodes: IndexSet::new(alloc),
        }
    }

    /// Returns the number of the constant `value`.
    pub fn constant(&mut self, value: bool) -> Result<usize, Refusal>
        ensures ok { IfOk result (Adds self.old self.new (constant value)) }
        ensures names { self.new.names ≡ self.old.names }
        ensures err { OnErr result (self.new ≡ self.old) }
        ensures memory { IsOkUnless result Refusal.Memory }
    {
        number_of_node(&mut self.nodes, FormulaNode::Constant(value))
    }

    /// Returns the number of the proposition with the name `bytes`. The name is copied if it is new.
    pub fn name(&mut self, alloc: Global, bytes: &[u8]) -> Result<usize, Refusal>
        ensures ok { IfOk result (Adds self.old self.new (name bytes.now)) }
        ensures names { OnOk result (self.new.names ≡ with_name self.old.names bytes.now) }
        ensures err { OnErr result (self.new.nodes ≡ self.old.nodes) }
        ensures memory { IsOkUnless result Refusal.Memory }
    {
        let number = number_of_name(alloc, &mut self.names, bytes)?;
        number_of_node(&mut self.nodes, FormulaNode::Name(number))
    }

    /// Returns the number of `operator` over the node `operand`.
    pub fn unary(&mut self, operator: UnaryOperator, operand: usize) -> Result<usize, Refusal>
        requires { operand < length self.old.nodes }
        ensures ok { IfOk result
            (Adds self.old self.new (unary operator (tree_at self.old operand))) }
        ensures names { self.new.names ≡ self.old.names }
        ensures err { OnErr result (self.new ≡ self.old) }
        ensures memory { IsOkUnless result Refusal.Memory }
    {
        number_of_node(&mut self.nodes, FormulaNode::Unary(operator, operand))
    }

    /// Returns the number of `operator` between the nodes `left` and `right`.
    pub fn binary(
        &mut self,
        operator: BinaryOperator,
        left: usize,
        right: usize,
    ) -> Result<usize, Refusal>
        requires left { left < length self.old.nodes }
        requires right { right < length self.old.nodes }
        ensures ok { IfOk result
            (Adds self.old self.new (binary operator (tree_at self.old left) (tree_at self.old right))) }
        ensures names { self.new.names ≡ self.old.names }
        ensures err { OnErr result (self.new ≡ self.old) }
        ensures memory { IsOkUnless result Refusal.Memory }
    {
        number_of_node(&mut self.nodes, FormulaNode::Binary(operator, left, right))
    }

    /// Returns the formula that the node `root` is, with all nodes and names. Takes linear time in the nodes.
    ///
    /// Fails with [AutomatonFault::TooDeep] if the formula is over 256 deep. Otherwise fails with
    /// [TaskFault::TooLarge] if it has over 4,096 atoms and operators, or if there are over 4,096 nodes or 64 names.
    pub fn finish(self, alloc: Global, root: usize) -> Result<Formula, Refusal>
        requires { root < length self.nodes }
        ensures ok { IfOk result (λ formula. formula ≡ numbered self.names self.nodes root) }
        ensures refused { IfErr result (IsFormulaRefusal (numbered self.names self.nodes root)) }
    {
        let names = copy_of_names(alloc, self.names.as_slice())?;
        let nodes = Vec::from_slice(alloc, self.nodes.as_slice())?;
        Formula::of_table(alloc, names, nodes, root)
    }
}

/// Returns the number of `node` among `nodes`, to which it is added if it is not among them.
fn number_of_node(nodes: &mut IndexSet<FormulaNode>, node: FormulaNode) -> Result<usize, Refusal>
    ensures nodes { OnOk result (IsWith nodes.old.keys node nodes.new.keys) }
    ensures number { IfOk result (λ number. slice_get nodes.new.keys number ≡ Some node) }
    ensures err { OnErr result (nodes.new.keys ≡ nodes.old.keys) }
    ensures memory { IsOkUnless result Refusal.Memory }
{
    let (number, _) = nodes.insert_full(node)?;
    Ok(number)
}
