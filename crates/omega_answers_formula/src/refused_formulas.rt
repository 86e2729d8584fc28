ghost use Rattle.std.specs.Prelude.{◌≡◌};
ghost use Rattle.omega_answers_formula.specs.Refused.{about_nothing, refused_about, unnumbered};

use omega_io::{Refused, Which};
use omega_text::Refusal;

/// What a refusal of formulas and of the text of an input is about.
#[derive(Clone, Copy, Debug, PartialEq, Eq)]
pub enum About {
    /// The text of the formula with this number. The first formula has the number 1.
    Formula(usize),
    /// The text of the input.
    Input,
    /// The formula with this number together with the input.
    Question(usize),
}

/// The reason why formulas are not answered.
#[derive(Clone, Copy, Debug, PartialEq, Eq)]
pub struct RefusedFormulas {
    /// The refusal of a text or of a question, or [Refusal::Memory].
    pub refusal: Refusal,
    /// What is refused. [Refusal::Memory] is about nothing.
    pub about: Option<About>,
}

impl RefusedFormulas {
    /// Makes `refusal` one about `about`, unless it is [Refusal::Memory], which is about nothing.
    pub(crate) fn of(about: About, refusal: Refusal) -> RefusedFormulas
        ensures { result ≡ refused_about about refusal }
    {
        match refusal {
            Refusal::Memory => RefusedFormulas::of_nothing(Refusal::Memory),
            _ => RefusedFormulas {
                refusal,
                about: Some(about),
            },
        }
    }

    /// Makes `refusal` one about nothing.
    pub(crate) fn of_nothing(refusal: Refusal) -> RefusedFormulas
        ensures { result ≡ about_nothing refusal }
    {
        RefusedFormulas {
            refusal,
            about: None,
        }
    }

    /// Returns the same without the number: the text of a formula is called that of the file, and a question is about
    /// neither text.
    pub fn unnumbered(self) -> Refused
        ensures { result ≡ unnumbered self }
    {
        Refused {
            refusal: self.refusal,
            text: match self.about {
                Some(About::Formula(_)) => Some(Which::File),
                Some(About::Input) => Some(Which::Input),
                Some(About::Question(_)) | None => None,
            },
        }
    }
}
