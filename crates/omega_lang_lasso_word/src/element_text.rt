use omega_text::Refusal;

/// Says what is told of an element of a stem or a cycle, such as the letter of an edge.
pub(crate) trait ElementText<E> {
    ghost use Rattle.std.specs.Prelude.{◌≡◌, ◌++◌, ℕ, List, OnOk, IsOkUnless};

    /// What has to hold where an element is told.
    ghost can_tell: { Self → Type 0 };

    /// The text of an element.
    ghost told: { Self → E → List ℕ };

    /// Appends the text of `element`.
    fn tell(&self, element: &E, out: &mut Vec<u8>) -> Result<(), Refusal>
        requires { can_tell self.now }
        ensures text { OnOk result (out.new.items ≡ out.old.items ++ told self.now element.now) }
        ensures memory { IsOkUnless result Refusal.Memory };
}
