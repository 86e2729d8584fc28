ghost use Rattle.std.specs.Prelude.{◌*◌, IfErr, IfOk};
ghost use Rattle.omega_ltl_shapes.specs.Shapes.{AreShapesOf, demand};
ghost use Rattle.omega_ltl_terms.specs.Adding.{IsLargeBy};
ghost use Rattle.omega_ltl_terms.specs.Needed.{HaveSets};
ghost use Rattle.omega_ltl_terms.specs.Tables.{AreTables, HasLargeDemand};

use crate::shapes::{demand, shapes_of};
use crate::strongs::strongs_of;
use crate::terms::terms_of_all;
use omega_ltl_formula::Formula;
use omega_ltl_shapes::{Shape, Term};
use omega_text::{Numbers, Refusal, Seq};
use std::alloc::Global;

/// The demands on the nodes of a formula: `2 * node` that a node holds, and `2 * node + 1` that it does not.
#[derive(Debug)]
pub struct Tables {
    /// What each demand comes to.
    pub shapes: Seq<Shape>,
    /// The strong demands that have a set, in the order of their sets.
    pub strongs: Numbers,
    /// What an edge has to fix for each demand to hold: one of these.
    pub terms: Seq<Seq<Term>>,
}

impl Drop for Tables {
    fn drop(self) {
        let Tables {
            shapes: _,
            strongs: _,
            terms: _,
        } = self;
    }
}

impl Tables {
    /// Returns the tables of a formula, with sets for the strong demands to which the formula leads, or with `negated`
    /// its negation. Fails with [TaskFault::TooLarge] if a demand has over [MOST_TERMS] terms.
    pub fn of_formula(alloc: Global, formula: &Formula, negated: bool) -> Result<Tables, Refusal>
        ensures shapes { IfOk result
            (λ tables. AreShapesOf formula.now.table.nodes tables.shapes) }
        ensures tables { IfOk result AreTables }
        ensures sets { IfOk result
            (λ tables. HaveSets tables.shapes (demand formula.now.root negated) tables.strongs) }
        ensures refused { IfErr result (IsLargeBy (HasLargeDemand formula.now.table.nodes)) }
    {
        formula.keeps_limits();
        let shapes = shapes_of(alloc, formula)?;
        let root = demand(formula.root(), negated);
        let strongs = strongs_of(alloc, shapes.as_slice(), root)?;
        let terms = terms_of_all(alloc, shapes.as_slice())?;
        Ok(Tables {
            shapes,
            strongs,
            terms,
        })
    }
}
