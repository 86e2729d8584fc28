use omega_hoa::Item;
use omega_text::Refusal;

/// The text that is written for each item of a stream.
pub trait ItemText {
    ghost use Rattle.std.specs.Prelude.{◌≡◌, ◌++◌, ℕ, List, OnErr, OnOk, IsOkUnless};
    ghost use Rattle.omega_hoa.specs.declared.item.Item.{Item};

    /// The text of the item with this number. The first item has the number 0.
    ghost text: { ℕ → Item → List ℕ };

    /// Appends the text of `item` to `out`. After [Refusal::Memory] the vector is as before.
    fn append(number: usize, item: &Item, out: &mut Vec<u8>) -> Result<(), Refusal>
        ensures reported { OnOk result (out.new.items ≡ out.old.items ++ text number item.now) }
        ensures kept { OnErr result (out.new.items ≡ out.old.items) }
        ensures memory { IsOkUnless result Refusal.Memory };
}
