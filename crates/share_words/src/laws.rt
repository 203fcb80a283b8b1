//! Laws of the rule of the words, each the contract of a function without a body.
//!
//! The rule holds between any two steps, in whatever order the seats make them. These say what follows
//! from it, of all seats at once; what one seat learns stands at its calls.
ghost use Rattle.share_words.specs.WordLaws.{ListsRead, OtherStepsShow, SeatsRead, ShownIsOne, WordsRead};

/// What a path's word says of the lists of all seats.
pub fn words_read()
    ensures { WordsRead }
{}

/// What the lists of all seats say of each other, and the word of the living and the least word of them.
pub fn lists_read()
    ensures { ListsRead }
{}

/// Which numbers the seats have.
pub fn seats_read()
    ensures { SeatsRead }
{}

/// The words and the lists show one state of the core.
pub fn shown_is_one()
    ensures { ShownIsOne }
{}

/// The steps that are no events of the core change no state that is shown, but that seat 0 holds what a
/// seat held that it takes in.
pub fn other_steps_show()
    ensures { OtherStepsShow }
{}
