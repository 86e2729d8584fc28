ghost use Rattle.std.specs.Prelude.{◌≡◌, IfNone, IfSome};
ghost use Rattle.omega_cli_command.specs.Subcommands.{name_of};
ghost use Rattle.omega_cli_command.specs.declared.subcommand.Subcommand.{Subcommand};

/// A subcommand of the program. Help lists them in this order.
#[derive(Clone, Copy, Debug, PartialEq, Eq)]
pub enum Subcommand {
    Show,
    Check,
    Canon,
    Solve,
    Verify,
    Empty,
    Game,
    Automaton,
    Accepts,
    Contained,
    Equal,
    Satisfies,
    Meet,
    Join,
    Complement,
    Trim,
    Ltl,
    Realize,
    Draw,
}

/// Returns the subcommand of this name, if there is one.
pub fn subcommand_named(name: &str) -> Option<Subcommand>
    ensures some { IfSome result (λ subcommand. name.now ≡ name_of subcommand) }
    ensures none { IfNone result ((subcommand : Subcommand) → name.now ≡ name_of subcommand → ⊥) }
{
    match name {
        "show" => Some(Subcommand::Show),
        "check" => Some(Subcommand::Check),
        "canon" => Some(Subcommand::Canon),
        "solve" => Some(Subcommand::Solve),
        "verify" => Some(Subcommand::Verify),
        "empty" => Some(Subcommand::Empty),
        "game" => Some(Subcommand::Game),
        "automaton" => Some(Subcommand::Automaton),
        "accepts" => Some(Subcommand::Accepts),
        "contained" => Some(Subcommand::Contained),
        "equal" => Some(Subcommand::Equal),
        "satisfies" => Some(Subcommand::Satisfies),
        "meet" => Some(Subcommand::Meet),
        "join" => Some(Subcommand::Join),
        "complement" => Some(Subcommand::Complement),
        "trim" => Some(Subcommand::Trim),
        "ltl" => Some(Subcommand::Ltl),
        "realize" => Some(Subcommand::Realize),
        "draw" => Some(Subcommand::Draw),
        _ => None,
    }
}
