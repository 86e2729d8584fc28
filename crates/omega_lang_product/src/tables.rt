ghost use Rattle.std.specs.Prelude.{◌≡◌, ◌+◌, ◌<◌, ◌≤◌, ◌^◌, length, IfErr, IfOk, IsOkUnless, OnOk};
ghost use Rattle.omega_hoa_edges.specs.Fitting.{IsLarge};
ghost use Rattle.omega_lang_product.specs.Joining.{joined_names};
ghost use Rattle.omega_lang_product.specs.Limits.{most_joint_sets};
ghost use Rattle.omega_lang_product.specs.Refusing.{HasUnfitAt};
ghost use Rattle.omega_lang_product.specs.private.Operands.{AreTables, Reaches};

use crate::names::places_among;
use crate::table::Table;
use omega_hoa_automaton::Automaton;
use omega_text::{ByteString, Refusal};
use std::alloc::Global;

/// The edges of two automata as their product sees them, those of a state once a pair has reached it.
#[derive(Drop)]
pub(crate) struct Tables {
    /// The edges of the first automaton.
    pub(crate) firsts: Table,
    /// The edges of the second automaton, whose sets are numbered after those of the first.
    pub(crate) seconds: Table,
}

impl Tables {
    /// Makes the tables of two automata, in which no edges are made yet. `names` are the joined names of both.
    pub(crate) fn of(
        alloc: Global,
        one: &Automaton,
        other: &Automaton,
        names: &[ByteString],
    ) -> Result<Tables, Refusal>
        requires named { names.now ≡ joined_names one.now.propositions other.now.propositions }
        requires few { length names.now < 2 ^ 32 }
        requires room { one.now.sets + other.now.sets ≤ most_joint_sets }
        ensures ok { IfOk result (AreTables one.now other.now) }
        ensures memory { IsOkUnless result Refusal.Memory }
    {
        let places = places_among(alloc, names, one.propositions())?;
        let firsts = Table::of(alloc, one, places, 0)?;
        let places = places_among(alloc, names, other.propositions())?;
        let seconds = Table::of(alloc, other, places, one.set_count())?;
        Ok(Tables { firsts, seconds })
    }

    /// Makes the edges of both states of `pair`, if they are not made. `one` and `other` are the automata of the
    /// tables. Fails with [TaskFault::TooLarge] if a label of these edges is too deep or too large.
    pub(crate) fn reach(
        &mut self,
        alloc: Global,
        one: &Automaton,
        other: &Automaton,
        pair: (u32, u32),
    ) -> Result<(), Refusal>
        requires { AreTables one.now other.now self.old }
        ensures ok { OnOk result (Reaches one.now other.now pair self.old self.new) }
        ensures err { IfErr result (IsLarge (HasUnfitAt one.now other.now pair)) }
    {
        self.firsts.reach(alloc, one, pair.0)?;
        self.seconds.reach(alloc, other, pair.1)?;
        Ok(())
    }
}
