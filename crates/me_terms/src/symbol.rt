//! Names and numbers of a file, and the symbols that carry them.
//!
//! A label is a form with a text, and a symbol a label with a number of arguments. Two of them are
//! equal exactly where both parts are.
ghost use Rattle.std.specs.Prelude.{◌≡◌};
ghost use Rattle.me_terms.specs.LabelEquality.{form_rank};

use crate::sequence::Sequence;
use std::hash::{Hash, Hasher};
use std::marker::Model;

/// How a label is written in a file.
#[derive(Clone, Copy, Debug, PartialEq, Eq, Hash)]
pub enum Form {
    /// A lower word, or any text in single quotes.
    Word,
    /// A distinct object: any text in double quotes.
    Distinct,
    /// Digits alone.
    Number,
}

impl Form {
    /// The number of the form, from 0.
    pub fn rank(self) -> u8
        ensures { result ≡ form_rank self }
    {
        match self {
            Form::Word => 0,
            Form::Distinct => 1,
            Form::Number => 2,
        }
    }
}

/// Bytes of a text.
pub type Text = Sequence<u8>;

/// A name or a number of a file: its form, and its text with quotes and backslashes taken off.
#[derive(Drop)]
pub struct Label {
    pub form: Form,
    pub text: Text,
}

impl Model for Label {
    ghost use Rattle.me_terms.specs.Values.{LabelValue};

    ghost Value = { LabelValue };

    ghost view = { λ l. record { form = l.form; text = l.text.items } };
}

impl PartialEq for Label {
    ghost use Rattle.std.specs.Cmp.{partial_equiv_from_equiv};
    ghost use Rattle.me_terms.specs.LabelEquality.{same_label};
    ghost use Rattle.me_terms.specs.LabelEqualityLaws.{label_laws};

    ghost eq = { same_label };

    ghost laws = { partial_equiv_from_equiv label_laws };

    fn eq(&self, other: &Self) -> bool {
        self.form.rank() == other.form.rank() && self.text.as_slice() == other.text.as_slice()
    }
}

impl Eq for Label {
    ghost use Rattle.me_terms.specs.LabelEqualityLaws.{label_laws};

    ghost laws = { label_laws };
}

impl Hash for Label {
    ghost use Rattle.std.specs.Prelude.{◌++◌, ◌≡◌};
    ghost use Rattle.std.specs.Hash as fed;
    ghost use Rattle.me_terms.specs.LabelEqualityLaws.{same_label_sound};
    ghost use Rattle.std.proofs.Common.{ap};

    ghost hash_input = { λ l. fed.slice fed.u8 l.text };

    ghost respects_eq = { λ a b h. ap (λ l. fed.slice fed.u8 l.text) (same_label_sound a b h) };

    fn hash<H: Hasher>(&self, state: &mut H) {
        self.text.as_slice().hash(state);
    }
}

/// A label with a number of arguments. Two symbols are one where both parts are equal.
#[derive(Drop)]
pub struct Symbol {
    pub label: Label,
    pub arity: u32,
}

impl Model for Symbol {
    ghost use Rattle.me_terms.specs.Values.{SymbolValue};

    ghost Value = { SymbolValue };

    ghost view = { λ s. record { label = s.label; arity = s.arity } };
}

impl PartialEq for Symbol {
    ghost use Rattle.std.specs.Cmp.{partial_equiv_from_equiv};
    ghost use Rattle.me_terms.specs.LabelEquality.{same_symbol};
    ghost use Rattle.me_terms.specs.LabelEqualityLaws.{symbol_laws};

    ghost eq = { same_symbol };

    ghost laws = { partial_equiv_from_equiv symbol_laws };

    fn eq(&self, other: &Self) -> bool {
        self.arity == other.arity && self.label == other.label
    }
}

impl Eq for Symbol {
    ghost use Rattle.me_terms.specs.LabelEqualityLaws.{symbol_laws};

    ghost laws = { symbol_laws };
}

impl Hash for Symbol {
    ghost use Rattle.std.specs.Hash as fed;
    ghost use Rattle.me_terms.specs.LabelEqualityLaws.{same_symbol_sound};
    ghost use Rattle.std.proofs.Common.{ap};

    ghost hash_input = { λ s. fed.slice fed.u8 s.label.text };

    ghost respects_eq = { λ a b h. ap (λ s. fed.slice fed.u8 s.label.text) (same_symbol_sound a b h) };

    fn hash<H: Hasher>(&self, state: &mut H) {
        self.label.hash(state);
    }
}
