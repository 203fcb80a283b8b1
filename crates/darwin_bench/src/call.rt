//! What a call asks for: which operations, on inputs of which size, and how many times.
//!
//! Words are read by `call_of`, which answers `None` where they are not of the form that `main` tells.
use crate::atoms::Shape;
use crate::copies::{Form, Life};

/// The operations that are done.
#[derive(Clone, Copy)]
pub(crate) enum Work {
    /// Pairs of a shape are unified.
    Unify(Shape),
    /// Pairs of a shape are matched.
    Match(Shape),
    /// The tuples are enumerated of a clause of so many literals.
    Tuples(u32),
    /// A context of this form is copied.
    Copy(Form, Life),
}

/// A call of the program.
#[derive(Drop)]
pub(crate) struct Call {
    pub work: Work,
    pub size: u32,
    pub times: u32,
}

fn number(word: &str) -> Option<u32> {
    word.parse::<u32>().ok()
}

fn shape_of(word: &str) -> Option<Shape> {
    match word {
        "flat" => Some(Shape::Flat),
        "deep" => Some(Shape::Deep),
        "doubling" => Some(Shape::Doubling),
        _ => None,
    }
}

fn form_of(word: &str) -> Option<Form> {
    match word {
        "context" => Some(Form::Owned),
        "branch" => Some(Form::Lent),
        _ => None,
    }
}

fn work_of(work: &str, shape: &str) -> Option<Work> {
    match work {
        "unify" => Some(Work::Unify(shape_of(shape)?)),
        "match" => Some(Work::Match(shape_of(shape)?)),
        "tuples" => Some(Work::Tuples(number(shape)?)),
        "copy" => Some(Work::Copy(form_of(shape)?, Life::Short)),
        "keep" => Some(Work::Copy(form_of(shape)?, Life::Long)),
        _ => None,
    }
}

/// The call that the words make, the first of which is the program's name.
pub(crate) fn call_of(words: &[String]) -> Option<Call> {
    let [_, work, shape, size, times] = words else {
        return None;
    };
    Some(Call {
        work: work_of(work.as_str(), shape.as_str())?,
        size: number(size.as_str())?,
        times: number(times.as_str())?,
    })
}
