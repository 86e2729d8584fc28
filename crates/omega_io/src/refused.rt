ghost use Rattle.std.specs.Prelude.{◌≡◌};
ghost use Rattle.omega_io.specs.Refused.{about, about_none};

use omega_text::Refusal;

/// One of two texts.
#[derive(Clone, Copy, Debug, PartialEq, Eq)]
pub enum Which {
    /// The text of the file that is named beside the input.
    File,
    /// The text of the input.
    Input,
}

/// The reason why there is no answer to two texts.
#[derive(Clone, Copy, Debug, PartialEq, Eq)]
pub struct Refused {
    /// The refusal of the text, or [Refusal::Memory] or [Refusal::Io].
    pub refusal: Refusal,
    /// The text that is refused. [Refusal::Memory] and [Refusal::Io] are about no text.
    pub text: Option<Which>,
}

impl Refused {
    /// Makes `refusal` one of `text`, unless it is [Refusal::Memory] or [Refusal::Io], which are about no text.
    pub fn of(text: Which, refusal: Refusal) -> Refused
        ensures { result ≡ about text refusal }
    {
        match refusal {
            Refusal::Memory | Refusal::Io => Refused::from(refusal),
            _ => Refused {
                refusal,
                text: Some(text),
            },
        }
    }
}

impl From<Refusal> for Refused {
    ghost from_gives = { λ refusal e. e ≡ about_none refusal };

    /// Makes `refusal` one that is about no text.
    fn from(refusal: Refusal) -> Refused {
        Refused {
            refusal,
            text: None,
        }
    }
}
