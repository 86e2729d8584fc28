use omega_hoa::Item;
use omega_text::Refusal;
use std::alloc::Global;

/// A question that is asked of each item of a stream.
pub trait ItemQuestion {
    ghost use Rattle.std.specs.Prelude.{ℕ, IfErr, IfOk};
    ghost use Rattle.omega_text.specs.Cases.{or_memory};
    ghost use Rattle.omega_text.specs.declared.refusal.Refusal.{Refusal};
    ghost use Rattle.omega_hoa.specs.declared.item.Item.{Item};
    ghost use Rattle.omega_answers_stream.specs.Answer.{Answer, AppendsAnswer, not_io};

    /// Which answers the item with this number has. The first item has the number 0.
    ghost answers: { Self → ℕ → Item → Answer → Type 0 };

    /// How an item is refused.
    ghost refuses: { Self → Item → Refusal → Type 0 };

    /// Appends the text of the answer to `item` to `out`, and returns whether the answer is `no`. After a refusal,
    /// which is never [Refusal::Io], a part of a text may be appended.
    fn append(
        &self,
        alloc: Global,
        number: usize,
        item: &Item,
        out: &mut Vec<u8>,
    ) -> Result<bool, Refusal>
        ensures answer { IfOk result (λ no.
            AppendsAnswer (answers self.now number item.now) out.old.items out.new.items no) }
        ensures refused { IfErr result (or_memory (not_io (refuses self.now item.now))) };
}
