//! What an entry more changes in a context, as laws, each the contract of a function with an empty body.
//!
//! A search that keeps what it found along a branch rests on them: what is hidden, refused or excepted
//! stays so, and a new candidate uses a new entry.
#![tactic(auto)]

ghost use Rattle.me_laws_increments.specs.Candidates.{AssertsAreDerived, DerivedIsAsserted, OldAsserts, OldCloses, OldProductiveUnifiers, OldSplits, UnifierIsProductive};
ghost use Rattle.me_laws_increments.specs.Exceptions.{ExceptionsStay, ProducedBefore, ProductiveWhereFree};
ghost use Rattle.me_laws_increments.specs.FirstUnfit.{FirstRemainingIsBounded, FitsAsCanonical, LeastIsFirstRemaining, PlacesRemain, RemainingIsUnfit};
ghost use Rattle.me_laws_increments.specs.Lookup.{FixedIsRefused, GroundIsFixed, GroundRefusals, ParametricRefusals, UniversalRefusals};
ghost use Rattle.me_laws_increments.specs.NewEntries.{GroundHidesNone, GroundStandsOnce, NewestWasNotFixed};
ghost use Rattle.me_laws_increments.specs.Pairs.{AssertNeedsPairs, AssertUsesLiterals, CloseNeedsPairs, CloseUsesLiterals, GroundPlacesByKind, ProductiveNeedsPairs};
ghost use Rattle.me_laws_increments.specs.Phases.{LaterAssertsAreNew, LaterClosesAreNew, LeastNewCloseIsLeast, NoAssertBeforeSplit, NoCloseBefore, NoCloseUnlessNext, NoNewClose};
ghost use Rattle.me_laws_increments.specs.Pivots.{AssertsByPivot, ClosesByPivot, NewestIsPivot, PivotExists, PivotIsOnly, ProductiveUnifiersByPivot, SplitsByPivot, WithinByPivot};
ghost use Rattle.me_laws_increments.specs.Prefixes.{ExceptedIsUnproductive, FixedComesDown, FixedIsNotAsserted, LiteralsComeDown, MeasuresGrow, ProductionComesDown, RemainingStays, UnfitStaysUnfit, WholeExtendsParts, WholeSolvesParts};
ghost use Rattle.me_laws_increments.specs.Refusals.{AllowedBefore, AllowedWhereNotRefused, RefusedStaysRefused};
ghost use Rattle.me_laws_increments.specs.Replacement.{CoveredStaysCovered, FixedStaysFixed, HiddenIsCovered, HiddenStaysHidden, VisibleOrCovered};
ghost use Rattle.me_laws_increments.specs.SmallContext.{SmallContextExample};
ghost use Rattle.me_laws_increments.specs.SmallTuples.{SmallTuplesExample};
ghost use Rattle.me_laws_increments.specs.Tuples.{AssertedEntriesStay, OppositeIsWithin, OppositeWhileVisible, RemaindersStay, SolutionsStay, UnifiersStay};

/// A hidden entry is covered by a visible one.
pub fn hidden_is_covered()
    ensures { HiddenIsCovered }
{}

/// What is hidden stays hidden.
pub fn hidden_stays_hidden()
    ensures { HiddenStaysHidden }
{}

/// A visible entry stays visible, or a visible one covers it later.
pub fn visible_or_covered()
    ensures { VisibleOrCovered }
{}

/// What is covered stays covered.
pub fn covered_stays_covered()
    ensures { CoveredStaysCovered }
{}

/// A fixed atom stays fixed.
pub fn fixed_stays_fixed()
    ensures { FixedStaysFixed }
{}

/// A literal may be asserted exactly where it fits and is not refused.
pub fn allowed_where_not_refused()
    ensures { AllowedWhereNotRefused }
{}

/// What is refused stays refused.
pub fn refused_stays_refused()
    ensures { RefusedStaysRefused }
{}

/// What may be asserted later may be asserted before.
pub fn allowed_before()
    ensures { AllowedBefore }
{}

/// An exception stays one.
pub fn exceptions_stay()
    ensures { ExceptionsStay }
{}

/// What an entry produces later it produces before.
pub fn produced_before()
    ensures { ProducedBefore }
{}

/// A context unifier is productive exactly where it is free of exceptions.
pub fn productive_where_free()
    ensures { ProductiveWhereFree }
{}

/// A tuple that is set against the literals of a clause is within the context.
pub fn opposite_is_within()
    ensures { OppositeIsWithin }
{}

/// A tuple is set against the literals later exactly where it was before and is visible still.
pub fn opposite_while_visible()
    ensures { OppositeWhileVisible }
{}

/// A tuple of the context has the same solutions later.
pub fn solutions_stay()
    ensures { SolutionsStay }
{}

/// A tuple of the context has the same most general unifiers later.
pub fn unifiers_stay()
    ensures { UnifiersStay }
{}

/// The same places of a tuple of the context remain later.
pub fn remainders_stay()
    ensures { RemaindersStay }
{}

/// What follows from a tuple of the context has the same kind and reason later.
pub fn asserted_entries_stay()
    ensures { AssertedEntriesStay }
{}

/// A later Close with a tuple of the context is one of the context.
pub fn old_closes()
    ensures { OldCloses }
{}

/// A later Assert with a tuple of the context is one of the context.
pub fn old_asserts()
    ensures { OldAsserts }
{}

/// A later productive unifier with a tuple of the context is one of the context.
pub fn old_productive_unifiers()
    ensures { OldProductiveUnifiers }
{}

/// A later Split with a tuple of the context is one of the context.
pub fn old_splits()
    ensures { OldSplits }
{}

/// Each Assert adds a literal that is derived.
pub fn asserts_are_derived()
    ensures { AssertsAreDerived }
{}

/// What was derived is an Assert exactly while its tuple is visible and it is not refused.
pub fn derived_is_asserted()
    ensures { DerivedIsAsserted }
{}

/// What was a context unifier is productive exactly while it is visible and free of exceptions.
pub fn unifier_is_productive()
    ensures { UnifierIsProductive }
{}

/// Each tuple but the empty one has a pivot.
pub fn pivot_exists()
    ensures { PivotExists }
{}

/// A tuple has no more than one pivot, at one place.
pub fn pivot_is_only()
    ensures { PivotIsOnly }
{}

/// A tuple is within a context exactly where its pivot is a position of it.
pub fn within_by_pivot()
    ensures { WithinByPivot }
{}

/// A tuple that uses the newest entry has that as its pivot.
pub fn newest_is_pivot()
    ensures { NewestIsPivot }
{}

/// Each Close of a context that goes on was one before, or its pivot is a later entry.
pub fn closes_by_pivot()
    ensures { ClosesByPivot }
{}

/// Each Assert of a context that goes on was one before, or its pivot is a later entry.
pub fn asserts_by_pivot()
    ensures { AssertsByPivot }
{}

/// Each productive unifier of a context that goes on was one before, or its pivot is a later entry.
pub fn productive_unifiers_by_pivot()
    ensures { ProductiveUnifiersByPivot }
{}

/// Each Split of a context that goes on was one before, or its pivot is a later entry.
pub fn splits_by_pivot()
    ensures { SplitsByPivot }
{}

/// Where the next step is no Close there is none.
pub fn no_close_unless_next()
    ensures { NoCloseUnlessNext }
{}

/// Before each entry of a grown context, but the first, there was no Close.
pub fn no_close_before()
    ensures { NoCloseBefore }
{}

/// Before each entry that a Split added there was no Assert.
pub fn no_assert_before_split()
    ensures { NoAssertBeforeSplit }
{}

/// Where there was no Close, the pivot of each later one is a later entry.
pub fn later_closes_are_new()
    ensures { LaterClosesAreNew }
{}

/// Where there was no Assert, the pivot of each later one is a later entry.
pub fn later_asserts_are_new()
    ensures { LaterAssertsAreNew }
{}

/// Where there was no Close, the least of those with a later pivot is the least of all.
pub fn least_new_close_is_least()
    ensures { LeastNewCloseIsLeast }
{}

/// Where there was no Close, and none has a later pivot, there is none.
pub fn no_new_close()
    ensures { NoNewClose }
{}

/// A literal with a fixed atom is refused, whatever its sign and kind.
pub fn fixed_is_refused()
    ensures { FixedIsRefused }
{}

/// A ground literal is refused exactly where its atom is fixed.
pub fn ground_refusals()
    ensures { GroundRefusals }
{}

/// A Parametric literal is refused exactly where its atom is fixed or a visible entry has it.
pub fn parametric_refusals()
    ensures { ParametricRefusals }
{}

/// A Universal literal is refused exactly where its atom is fixed or an entry of the other sign stands against it.
pub fn universal_refusals()
    ensures { UniversalRefusals }
{}

/// A ground atom is fixed exactly where an entry has it or a Universal one with variables generalizes it.
pub fn ground_is_fixed()
    ensures { GroundIsFixed }
{}

/// The atom of the newest entry was not fixed before.
pub fn newest_was_not_fixed()
    ensures { NewestWasNotFixed }
{}

/// Where the newest atom is ground, no entry had it.
pub fn ground_stands_once()
    ensures { GroundStandsOnce }
{}

/// A ground entry hides none.
pub fn ground_hides_none()
    ensures { GroundHidesNone }
{}

/// Each solution of the whole solves its parts.
pub fn whole_solves_parts()
    ensures { WholeSolvesParts }
{}

/// Each solution of the whole extends the unifier of each part.
pub fn whole_extends_parts()
    ensures { WholeExtendsParts }
{}

/// Each literal is an instance of what it is under a family that is extended.
pub fn literals_come_down()
    ensures { LiteralsComeDown }
{}

/// Each literal is no shallower and no lighter under what extends a family.
pub fn measures_grow()
    ensures { MeasuresGrow }
{}

/// What remains under a family remains under what extends it.
pub fn remaining_stays()
    ensures { RemainingStays }
{}

/// Where the whole is productive its parts are.
pub fn production_comes_down()
    ensures { ProductionComesDown }
{}

/// An exception under a family leaves no productive one among those that extend it.
pub fn excepted_is_unproductive()
    ensures { ExceptedIsUnproductive }
{}

/// A literal with a fixed atom has one under what extends the family.
pub fn fixed_comes_down()
    ensures { FixedComesDown }
{}

/// A literal with a fixed atom is not asserted under what extends the family.
pub fn fixed_is_not_asserted()
    ensures { FixedIsNotAsserted }
{}

/// A literal that does not fit does not under what extends the family.
pub fn unfit_stays_unfit()
    ensures { UnfitStaysUnfit }
{}

/// No Close uses the pseudo-literal.
pub fn close_uses_literals()
    ensures { CloseUsesLiterals }
{}

/// No Assert uses the pseudo-literal.
pub fn assert_uses_literals()
    ensures { AssertUsesLiterals }
{}

/// Each literal of a clause with a productive unifier has a pair.
pub fn productive_needs_pairs()
    ensures { ProductiveNeedsPairs }
{}

/// Each literal of a clause that closes has a pair other than the pseudo-literal.
pub fn close_needs_pairs()
    ensures { CloseNeedsPairs }
{}

/// Each other literal of a clause that asserts one has a pair other than the pseudo-literal.
pub fn assert_needs_pairs()
    ensures { AssertNeedsPairs }
{}

/// Against a ground literal the Parametric entries remain, and no others.
pub fn ground_places_by_kind()
    ensures { GroundPlacesByKind }
{}

/// A literal fits exactly where its canonical form does.
pub fn fits_as_canonical()
    ensures { FitsAsCanonical }
{}

/// Without a Close a place of each productive unifier remains.
pub fn places_remain()
    ensures { PlacesRemain }
{}

/// Without a Split no literal of a remainder fits.
pub fn remaining_is_unfit()
    ensures { RemainingIsUnfit }
{}

/// The least productive unifier has the first remainder literal.
pub fn least_is_first_remaining()
    ensures { LeastIsFirstRemaining }
{}

/// Where there is no candidate, the bound that the first remainder literal is beyond is the next step.
pub fn first_remaining_is_bounded()
    ensures { FirstRemainingIsBounded }
{}

/// A small context in which an entry is hidden, an atom fixed, and literals are refused.
pub fn small_context_example()
    ensures { SmallContextExample }
{}

/// Tuples with their pivots and parts.
pub fn small_tuples_example()
    ensures { SmallTuplesExample }
{}
