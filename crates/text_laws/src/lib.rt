//! What is printed and asked for is determined, as laws, each the contract of a function with an empty body.
//!
//! An answer has one text and one summary, and words ask for one list of options.
#![tactic(auto)]

ghost use Rattle.text_laws.specs.AskedOptions.{OptionsAreDetermined, SettingsAreDetermined};
ghost use Rattle.text_laws.specs.PrintedAnswers.{AnswerTextIsDetermined, SummaryIsDetermined};

/// An answer to a problem has one text under a name.
pub fn answer_text_is_determined()
    ensures { AnswerTextIsDetermined }
{}

/// An answer to a problem has one summary under a name.
pub fn summary_is_determined()
    ensures { SummaryIsDetermined }
{}

/// Words are one list of settings.
pub fn settings_are_determined()
    ensures { SettingsAreDetermined }
{}

/// Words ask for one list of options.
pub fn options_are_determined()
    ensures { OptionsAreDetermined }
{}
