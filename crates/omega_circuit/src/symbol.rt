//! Names of inputs, latches, outputs and properties.

ghost use Rattle.std.specs.Prelude.{◌≡◌};

use omega_text::ByteString;

/// What a symbol names.
#[derive(Clone, Copy, Debug, PartialEq, Eq)]
pub enum SymbolKind {
    /// `i`: an input.
    Input,
    /// `l`: a latch.
    Latch,
    /// `o`: an output.
    Output,
    /// `b`: a bad state.
    Bad,
    /// `c`: an invariant constraint.
    Constraint,
    /// `j`: a justice property.
    Justice,
    /// `f`: a fairness constraint.
    Fairness,
}

impl SymbolKind {
    ghost use Rattle.omega_circuit.specs.Symbols.{kind_letter};

    /// Returns the letter with which symbols of this kind begin.
    pub fn letter(self) -> u8
        ensures { result ≡ kind_letter self }
    {
        match self {
            SymbolKind::Input => b'i',
            SymbolKind::Latch => b'l',
            SymbolKind::Output => b'o',
            SymbolKind::Bad => b'b',
            SymbolKind::Constraint => b'c',
            SymbolKind::Justice => b'j',
            SymbolKind::Fairness => b'f',
        }
    }
}

/// The name of one input, latch, output or property.
#[derive(Debug)]
pub struct Symbol {
    /// What it names.
    pub kind: SymbolKind,
    /// Which one of this kind, from 0.
    pub position: u32,
    /// The name, of any bytes.
    pub name: ByteString,
}

impl Drop for Symbol {
    fn drop(self) {
        let Symbol {
            kind: _,
            position: _,
            name: _,
        } = self;
    }
}
