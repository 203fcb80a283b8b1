//! The machine that reads tokens, and the grammar of written files, as laws, each the contract of a function
//! with an empty body.
//!
//! The machine goes on, refuses and ends just where the grammar does. `~~p` is refused, which is said
//! without the machine.
#![tactic(auto)]

ghost use Rattle.grammar_laws.specs.TwoTildes.{OneTildeIsRead, TwoTildesAreRefused};
ghost use Rattle.grammar_laws.specs.Verdicts.{CutShortElsewhere, EndsBetweenFormulas, GoesOnWhileUnrefused, RefusesByGrammar};

/// The machine goes on with tokens exactly where none of them is refused.
pub fn goes_on_while_unrefused()
    ensures { GoesOnWhileUnrefused }
{}

/// Behind tokens with which the machine goes on, it refuses a token exactly where the grammar does or it passes a
/// limit, for that cause.
pub fn refuses_by_grammar()
    ensures { RefusesByGrammar }
{}

/// The machine stands between two formulas exactly where the tokens are a file.
pub fn ends_between_formulas()
    ensures { EndsBetweenFormulas }
{}

/// Elsewhere the tokens end too early.
pub fn cut_short_elsewhere()
    ensures { CutShortElsewhere }
{}

/// `cnf(a,axiom,~p).` is a file, and the machine reads it.
pub fn one_tilde_is_read()
    ensures { OneTildeIsRead }
{}

/// `cnf(a,axiom,~~p).` is no file: the second tilde is refused.
pub fn two_tildes_are_refused()
    ensures { TwoTildesAreRefused }
{}
