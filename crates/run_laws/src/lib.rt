//! Orderly runs of the core and the portions of walks, as laws, each the contract of a function with an empty
//! body.
//!
//! No Cut that a posted key allows drops the first exhausted leaf; closed runs exist; and a walk's portion keeps
//! to an orderly run.
#![tactic(auto)]

ghost use Rattle.run_laws.specs.ClosedRun.{ClosedRunExists};
ghost use Rattle.run_laws.specs.PortionInRun.{PortionsFitRuns};
ghost use Rattle.run_laws.specs.SmallPortion.{SmallPortionIsOne};
ghost use Rattle.run_laws.specs.SparedLeaves.{LegalCutsSpare, PostedKeysSpare};
ghost use Rattle.run_laws.specs.WalksInRun.{RunHoldsWalks};

/// Where a posted key may cut, the first exhausted leaf is spared.
pub fn posted_keys_spare()
    ensures { PostedKeysSpare }
{}

/// A legal Cut at a node of the tree spares the first exhausted leaf.
pub fn legal_cuts_spare()
    ensures { LegalCutsSpare }
{}

/// A closed orderly run of two actors, with a gift, a posted key and a Cut.
pub fn closed_run_exists()
    ensures { ClosedRunExists }
{}

/// A walk's portion keeps to an orderly run in which its path's gifts and keys are.
pub fn portions_fit_runs()
    ensures { PortionsFitRuns }
{}

/// The closed run holds the walks of two portions.
pub fn run_holds_walks()
    ensures { RunHoldsWalks }
{}

/// A portion with a Cut by a key that was told, and a gift beside it.
pub fn small_portion_is_one()
    ensures { SmallPortionIsOne }
{}
