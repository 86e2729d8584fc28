//! Runs of tokens that the reader of game texts takes at once.

ghost use Rattle.std.specs.Prelude.{◌≡◌, ◌≤◌, length, IfOk, IsOkUnless, OnOk};
ghost use Rattle.omega_pg.specs.declared.game.stage.GameStage.TheVariants.{Listed};
ghost use Rattle.omega_pg.specs.private.game.reader.Automaton.{IsReady};
ghost use Rattle.omega_pg.specs.private.game.reader.Pieces.{BeginsNode, LeadsOn};

use crate::game::pieces::{has_semicolon, next_head, next_successor};
use crate::game::reader::GameReader;
use crate::game::stage::GameStage;
use omega_game_values::Refusal;

impl GameReader {
    /// Takes as many nodes from `from` on as can be taken at once, and returns the place after them. The last one may
    /// be taken in part.
    pub(crate) fn take_nodes(&mut self, source: &[u8], from: usize) -> Result<usize, Refusal>
        requires within { from ≤ length source.now }
        requires begins { BeginsNode self.old.stage }
        requires ready { IsReady self.old }
        ensures leads { IfOk result (λ to. LeadsOn source.now from to self.old self.new) }
        ensures memory { IsOkUnless result Refusal.Memory }
    {
        let mut at = from;
        while let Some(head) = next_head(source, at) {
            self.begin_node(head.id, head.priority, head.owner, head.first)?;
            at = self.take_successors(source, head.end)?;
            if !has_semicolon(source, at) {
                return Ok(at);
            }
            self.stage = GameStage::Ended;
            at += 1;
        }
        Ok(at)
    }

    /// Takes as many further successors from `from` on as can be taken at once, and returns the place after them.
    pub(crate) fn take_successors(&mut self, source: &[u8], from: usize) -> Result<usize, Refusal>
        requires within { from ≤ length source.now }
        requires listed { self.old.stage ≡ Listed }
        requires ready { IsReady self.old }
        ensures leads { IfOk result (λ to. LeadsOn source.now from to self.old self.new) }
        ensures listed { OnOk result (self.new.stage ≡ Listed) }
        ensures memory { IsOkUnless result Refusal.Memory }
    {
        let mut at = from;
        while let Some(successor) = next_successor(source, at) {
            self.specs.add_successor(successor.id)?;
            at = successor.end;
        }
        Ok(at)
    }
}
