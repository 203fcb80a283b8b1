//! Laws of the definitions, each the contract of a function without a body.
//!
//! They say that whole records decide the one answer, and that orderly runs keep whole records.
ghost use Rattle.branch_core.specs.PathOrder.{CodesAreInjective, KeysOrderLeaves};
ghost use Rattle.branch_core.specs.RecordLaws.{LackingLoses, WholeCanAssemble, WholeCutsFollowSat, WholeRecordsAnswer, WholeRecordsFill};
ghost use Rattle.branch_core.specs.RunLaws.{ClosedRunsKeepWhole, OrderlyRunsAreRight};
ghost use Rattle.branch_core.specs.SearchTreeLaws.{SearchesAreTrees};
ghost use Rattle.branch_core.specs.WholeExample.{LeftAndGiftAreWhole};

/// Whole records decide the answer.
pub fn whole_records_answer()
    ensures { WholeRecordsAnswer }
{}

/// In whole records each Cut has a Sat left of it.
pub fn whole_cuts_follow_sat()
    ensures { WholeCutsFollowSat }
{}

/// Whole records can be filled in.
pub fn whole_records_fill()
    ensures { WholeRecordsFill }
{}

/// The records that a closed orderly run keeps are whole.
pub fn closed_runs_keep_whole()
    ensures { ClosedRunsKeepWhole }
{}

/// In an orderly run each path is taken at most once, and no first exhausted leaf is cut.
pub fn orderly_runs_are_right()
    ensures { OrderlyRunsAreRight }
{}

/// Different paths have different codes.
pub fn codes_are_injective()
    ensures { CodesAreInjective }
{}

/// A leaf whose key is smaller than a node's stands left of it.
pub fn keys_order_leaves()
    ensures { KeysOrderLeaves }
{}

/// Where memory is lacking, the total is lost.
pub fn lacking_loses()
    ensures { LackingLoses }
{}

/// An outcome has a tree, a tree an outcome, and a context at most one tree.
pub fn searches_are_trees()
    ensures { SearchesAreTrees }
{}

/// Whole records can be put together.
pub fn whole_can_assemble()
    ensures { WholeCanAssemble }
{}

/// An example of whole records.
pub fn left_and_gift_are_whole()
    ensures { LeftAndGiftAreWhole }
{}
