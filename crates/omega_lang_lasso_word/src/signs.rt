ghost use Rattle.std.specs.Prelude.{◌≡◌, ◌∷◌, ◌++◌, [], List, ℕ, IfNone, IfOk, IsOkUnless, MatchOption, OnOk};
ghost use Rattle.omega_lang_lasso_word.specs.private.Infix.{Words, joined_words, sign_words, signs_words};
ghost use Rattle.omega_lang_lasso_word.specs.private.Infix.{tightness_of, wanting, whole_words, words_at};
ghost use Rattle.omega_lang_lasso_word.specs.private.Infix.{words_before, words_with};
ghost use Rattle.omega_lang_lasso_word.specs.declared.signs.Waiting.TheVariants.{Part};

use omega_hoa_label::LabelNode;
use omega_text::Refusal;
use std::alloc::Global;
use std::marker::Model;

/// A sign of the text of a label.
#[derive(Clone, Copy)]
pub(crate) enum FormulaSign {
    Constant(bool),
    /// The name of the proposition with a number.
    Name(u32),
    Not,
    And,
    Or,
    Open,
    Close,
}

/// What is waiting to be written before the signs so far.
#[derive(Clone, Copy)]
pub(crate) enum Waiting {
    Written(FormulaSign),
    Part(Above),
}

/// The operator above a part.
#[derive(Clone, Copy)]
pub(crate) enum Above {
    /// None, or `|`.
    Loose,
    And,
    Not,
}

/// Returns how tightly the operator `above` binds.
fn tightness(above: Above) -> u32
    ensures { result ≡ tightness_of above }
{
    match above {
        Above::Loose => 0,
        Above::And => 1,
        Above::Not => 2,
    }
}

/// Signs that grow to the left. Contracts see them in their order.
#[derive(Drop)]
pub(crate) struct FormulaSigns {
    /// The last first.
    items: Vec<FormulaSign>,
}

impl Model for FormulaSigns {
    ghost use Rattle.std.specs.Prelude.{List, reverse};
    ghost use Rattle.omega_lang_lasso_word.specs.declared.signs.FormulaSign.{FormulaSign};

    ghost Value = { List FormulaSign };

    ghost view = { λ s. reverse s.items.items };
}

impl FormulaSigns {
    /// Makes an empty list of signs.
    fn new(alloc: Global) -> Self
        ensures { result ≡ [] }
    {
        FormulaSigns {
            items: Vec::new(alloc),
        }
    }

    /// Puts `sign` before the others.
    fn put(&mut self, sign: FormulaSign) -> Result<(), Refusal>
        ensures ok { OnOk result (self.new ≡ sign ∷ self.old) }
        ensures memory { IsOkUnless result Refusal.Memory }
    {
        self.items.push(sign)?;
        Ok(())
    }

    /// Takes the first sign.
    pub(crate) fn take(&mut self) -> Option<FormulaSign>
        ensures { MatchOption result ((self.old ≡ []) × (self.new ≡ []))
            (λ sign. self.old ≡ sign ∷ self.new) }
    {
        self.items.pop()
    }
}

/// A stack of what is waiting, the next on top.
#[derive(Drop)]
pub(crate) struct Waitings {
    items: Vec<Waiting>,
}

impl Model for Waitings {
    ghost use Rattle.std.specs.Prelude.{List, reverse};
    ghost use Rattle.omega_lang_lasso_word.specs.declared.signs.Waiting.{Waiting};

    ghost Value = { List Waiting };

    ghost view = { λ w. reverse w.items.items };
}

impl Waitings {
    /// Makes an empty stack.
    fn new(alloc: Global) -> Self
        ensures { result ≡ [] }
    {
        Waitings {
            items: Vec::new(alloc),
        }
    }

    /// Pushes `waiting`.
    fn push(&mut self, waiting: Waiting) -> Result<(), Refusal>
        ensures ok { OnOk result (self.new ≡ waiting ∷ self.old) }
        ensures memory { IsOkUnless result Refusal.Memory }
    {
        self.items.push(waiting)?;
        Ok(())
    }

    /// Pops what is on top, or returns none if the stack is empty.
    fn pop(&mut self) -> Option<Waiting>
        ensures { MatchOption result ((self.old ≡ []) × (self.new ≡ []))
            (λ waiting. self.old ≡ waiting ∷ self.new) }
    {
        self.items.pop()
    }
}

/// The text of a label in signs, made from its last node to its first. Whether a part needs parentheses is known at its
/// operator, which comes before it.
#[derive(Drop)]
pub(crate) struct Infix {
    pub(crate) signs: FormulaSigns,
    waiting: Waitings,
}

impl Infix {
    /// Makes a text of which one part is wanted, below the operator `above`.
    pub(crate) fn new(alloc: Global, above: Above) -> Result<Infix, Refusal>
        ensures ok { IfOk result (λ text. (names : List (List ℕ)) (part : Words) →
            whole_words names text (part ∷ []) ≡ words_at (tightness_of above) part) }
        ensures memory { IsOkUnless result Refusal.Memory }
    {
        let mut waiting = Waitings::new(alloc);
        waiting.push(Waiting::Part(above))?;
        Ok(Infix {
            signs: FormulaSigns::new(alloc),
            waiting,
        })
    }

    /// Puts the sign of `node`, the last of a part, before those so far, and makes its parts wanted.
    pub(crate) fn put(&mut self, node: LabelNode) -> Result<(), Refusal>
        ensures ok { OnOk result
            ((names : List (List ℕ)) (parts : List Words) → whole_words names self.new parts
            ≡ whole_words names self.old (words_with names parts node)) }
        ensures memory { IsOkUnless result Refusal.Memory }
    {
        let Some(above) = self.turn()? else {
            return Ok(());
        };
        match node {
            LabelNode::Constant(value) => self.signs.put(FormulaSign::Constant(value)),
            LabelNode::Proposition(number) => self.signs.put(FormulaSign::Name(number)),
            LabelNode::Not => {
                self.waiting.push(Waiting::Written(FormulaSign::Not))?;
                self.waiting.push(Waiting::Part(Above::Not))
            }
            LabelNode::And => self.join(FormulaSign::And, Above::And, above),
            LabelNode::Or => self.join(FormulaSign::Or, Above::Loose, above),
            LabelNode::Alias(_) | LabelNode::Group => Ok(()),
        }
    }

    /// Makes two parts below `level` and `operator` between them wanted, in parentheses if the operator `above` them
    /// binds more tightly.
    fn join(&mut self, operator: FormulaSign, level: Above, above: Above) -> Result<(), Refusal>
        ensures ok { OnOk result ((names : List (List ℕ)) (parts : List Words) →
            whole_words names self.new parts ≡
            words_before names (Part above ∷ self.old.waiting)
            (joined_words (tightness_of level) (sign_words names operator) parts) ++
            signs_words names self.old.signs) }
        ensures memory { IsOkUnless result Refusal.Memory }
    {
        if tightness(level) < tightness(above) {
            self.signs.put(FormulaSign::Close)?;
            self.waiting.push(Waiting::Written(FormulaSign::Open))?;
        }
        self.waiting.push(Waiting::Part(level))?;
        self.waiting.push(Waiting::Written(operator))?;
        self.waiting.push(Waiting::Part(level))
    }

    /// Puts the signs that are waiting before those so far, up to the next part that is wanted. Returns the
    /// operator above it, or none if no part is wanted any more.
    fn turn(&mut self) -> Result<Option<Above>, Refusal>
        ensures ok { IfOk result (λ next. (names : List (List ℕ)) (parts : List Words) →
            whole_words names self.old parts ≡ words_before names (wanting next self.new.waiting) parts
            ++ signs_words names self.new.signs) }
        ensures none { IfOk result (λ next. IfNone next (self.new.waiting ≡ [])) }
        ensures memory { IsOkUnless result Refusal.Memory }
    {
        while let Some(waiting) = self.waiting.pop() {
            match waiting {
                Waiting::Written(sign) => self.signs.put(sign)?,
                Waiting::Part(above) => return Ok(Some(above)),
            }
        }
        Ok(None)
    }

    /// Puts all signs that are waiting before those so far, once no part comes any more.
    pub(crate) fn finish(&mut self) -> Result<(), Refusal>
        ensures ok { OnOk result ((names : List (List ℕ)) →
            signs_words names self.new.signs ≡ whole_words names self.old []) }
        ensures memory { IsOkUnless result Refusal.Memory }
    {
        while let Some(waiting) = self.waiting.pop() {
            if let Waiting::Written(sign) = waiting {
                self.signs.put(sign)?;
            }
        }
        Ok(())
    }
}
