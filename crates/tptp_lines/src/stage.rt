//! What was read last of a line that may be an include.

/// What was read last.
#[derive(Clone, Copy, Debug, PartialEq, Eq)]
pub(crate) enum Stage {
    /// A part of a formula, or a whole line, or nothing.
    Formula,
    /// The word `include`.
    Included,
    /// The bracket behind it.
    Opened,
    /// The name of the file.
    Named,
    /// The comma behind that.
    Selecting,
    /// The bracket of a selection, or a comma in it.
    Picking,
    /// A name in a selection.
    Picked,
    /// The bracket that closes a selection.
    Selected,
    /// The bracket that closes the include.
    Closed,
}
