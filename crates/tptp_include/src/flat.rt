//! The formulas of a file once it is flat.
//!
//! They are added one by one, as many as a file may have, and as long as the text is no longer than a file may be.
ghost use Rattle.std.specs.Prelude.{◌≡◌, ◌≤◌, [], ◌∷◌, ◌++◌, length, map, Some, None, IfOk, IfErr, IsErrOf, OnOk, IfSome, IfNone, if◌then◌else◌};
ghost use Rattle.std.specs.List.{list_any};
ghost use Rattle.me_io.specs.declared.source.TheConstants.{MAX_BYTES};
ghost use Rattle.me_terms.specs.LabelEquality.{same_label};
ghost use Rattle.tptp_grammar.specs.declared.limits.TheConstants.{MAX_FORMULAS};
ghost use Rattle.tptp_lines.specs.LineViews.{picks_value};
ghost use Rattle.tptp_include.specs.Flat.{text_of, picked};
ghost use Rattle.tptp_include.specs.Outcomes.{added, unnamed, unnamed_in, Flat as IsFlatOutcome, Stops};
ghost use Rattle.tptp_include.specs.Views.{TellsStop};

use crate::error::{FlatError, FlatLimit};
use me_io::MAX_BYTES;
use me_terms::{Label, Sequence, Text};
use std::alloc::{AllocError, Global};
use std::marker::Model;
use tptp_grammar::MAX_FORMULAS;
use tptp_lines::Labels;

/// A formula by its label, and its bytes.
#[derive(Drop)]
pub(crate) struct FlatFormula {
    pub(crate) label: Label,
    pub(crate) text: Text,
}

impl Model for FlatFormula {
    ghost use Rattle.tptp_include.specs.Flat.{FlatValue};

    ghost Value = { FlatValue };

    ghost view = { λ f. record { label = f.label; bytes = f.text.items } };
}

/// Whether one of the labels is this.
fn has(labels: &[Label], label: &Label) -> bool
    ensures { result ≡ list_any (same_label label.now) labels.now }
{
    labels.iter().any(|other| *label == *other)
}

/// Whether a formula has this label.
fn has_formula(formulas: &[FlatFormula], label: &Label) -> bool
    ensures { result ≡ list_any (λ f. same_label f.label label.now) formulas.now }
{
    formulas.iter().any(|formula| formula.label == *label)
}

/// The first of these labels that no formula has.
fn first_unnamed<'a>(labels: &'a [Label], formulas: &[FlatFormula]) -> Option<&'a Label>
    ensures some { IfSome result (λ label. unnamed labels.now formulas.now ≡ Some label.now) }
    ensures none { IfNone result (unnamed labels.now formulas.now ≡ None) }
{
    'labels: for label in labels {
        if !has_formula(formulas, label) {
            return Some(label);
        }
    }
    None
}

/// The formulas so far, and the length of their text.
#[derive(Drop)]
pub(crate) struct Flat {
    formulas: Vec<FlatFormula>,
    size: u64,
}

impl Model for Flat {
    ghost use Rattle.std.specs.Prelude.{◌≡◌, ◌≤◌, List, length};
    ghost use Rattle.me_io.specs.declared.source.TheConstants.{MAX_BYTES};
    ghost use Rattle.tptp_include.specs.Flat.{FlatValue, text_of};

    ghost Value = { List FlatValue };

    ghost view = { λ f. f.formulas.items };

    ghost invariant = { λ f. (f.size ≡ length (text_of f.formulas.items)) × (f.size ≤ MAX_BYTES) };
}

impl Flat {
    /// No formula is added so far.
    pub(crate) fn new(alloc: Global) -> Self
        ensures { result ≡ [] }
    {
        Flat {
            formulas: Vec::new(alloc),
            size: 0,
        }
    }

    /// Adds a formula, or says which limit it passes.
    pub(crate) fn add(&mut self, formula: FlatFormula) -> Result<(), FlatError>
        ensures ok { OnOk result (added self.old (formula ∷ []) ≡ IsFlatOutcome self.new) }
        ensures ends { OnOk result (self.new ≡ self.old ++ formula ∷ []) }
        ensures err { IfErr result (TellsStop (λ why. added self.old (formula ∷ []) ≡ Stops why)) }
        ensures fault { ¬ IsErrOf result FlatError.Fault }
    {
        if self.formulas.len() >= MAX_FORMULAS as usize {
            return Err(FlatError::Limit {
                which: FlatLimit::Formulas,
            });
        }
        let size = self.size + formula.text.len() + 1;
        if size > MAX_BYTES as u64 {
            return Err(FlatError::Limit {
                which: FlatLimit::Length,
            });
        }
        if self.formulas.push(formula).is_err() {
            return Err(FlatError::Memory);
        }
        self.size = size;
        Ok(())
    }

    /// The first of the labels that no formula has.
    pub(crate) fn unnamed<'a>(&self, picks: &'a Option<Labels>) -> Option<&'a Label>
        ensures some { IfSome result (λ label. unnamed_in (picks_value picks.now) self.now ≡ Some label.now) }
        ensures none { IfNone result (unnamed_in (picks_value picks.now) self.now ≡ None) }
    {
        match picks {
            Some(labels) => first_unnamed(labels.as_slice(), &self.formulas),
            None => None,
        }
    }

    /// Adds what is picked of these formulas, or says which limit it passes.
    pub(crate) fn add_picked(
        &mut self,
        whole: Flat,
        picks: &Option<Labels>,
    ) -> Result<(), FlatError>
        ensures ok { OnOk result (added self.old (picked (picks_value picks.now) whole) ≡ IsFlatOutcome self.new) }
        ensures err { IfErr result (TellsStop (λ why. added self.old (picked (picks_value picks.now) whole) ≡ Stops why)) }
        ensures fault { ¬ IsErrOf result FlatError.Fault }
    {
        let Flat { formulas, size: _ } = whole;
        let mut left = formulas;
        left.reverse();
        'left: while let Some(formula) = left.pop() {
            if is_picked(picks, &formula) {
                self.add(formula)?;
            }
        }
        Ok(())
    }

    /// Each formula and a line feed.
    pub(crate) fn text(&self, alloc: Global) -> Result<Vec<u8>, AllocError>
        ensures { IfOk result (λ text. text.items ≡ text_of self.now) }
    {
        let mut text = Vec::new(alloc);
        text.reserve_exact(self.size as usize)?;
        'formulas: for formula in &self.formulas {
            text.extend_from_slice(formula.text.as_slice())?;
            text.push(b'\n')?;
        }
        Ok(text)
    }
}

/// Whether the formula is picked: there is no selection, or its label is in it.
fn is_picked(picks: &Option<Labels>, formula: &FlatFormula) -> bool
    ensures { picked (picks_value picks.now) (formula.now ∷ []) ≡ if result then formula.now ∷ [] else [] }
{
    match picks {
        Some(labels) => has(labels.as_slice(), &formula.label),
        None => true,
    }
}
