//! The frame of a context's last entry, by what is kept of the entries before it.
ghost use Rattle.std.specs.Prelude.{◌≡◌, ◌<◌, ◌+◌, ◌∷◌, ◌++◌, [], length, take, true, false, IfOk, OnOk};
ghost use Rattle.me_terms.specs.Validity.{IsValid, IsLawful};
ghost use Rattle.me_terms.specs.Close.{HasClose};
ghost use Rattle.me_terms.specs.Assert.{HasAssert};
ghost use Rattle.clause_pairs.specs.Pairs.{ArePairs};
ghost use Rattle.literal_index.specs.Index.{IsIndex};
ghost use Rattle.kept_asserts.specs.Held.{HoldsAsserts};
ghost use Rattle.candidate_store.specs.Kept.{AreFrames, IsFrame, is_close};

use crate::frame::{Frame, is_settled, last_of, same_search};
use crate::search::Search;
use candidate_keys::Asserts;
use me_terms::View;
use next_rule::next_step;
use std::alloc::AllocError;

impl<'a, V: View> Search<'a, V> {
    /// The frame where there is neither a Close nor an Assert.
    fn split_frame(&self, frames: &[Frame]) -> Result<Frame, AllocError>
        requires valid { IsValid self.now.problem.now }
        requires bounds { IsLawful self.now.bounds.now }
        requires pairs { ArePairs self.now.problem.now (V.context self.now.view.now) self.now.pairs.now }
        requires each { length (V.context self.now.view.now) ≡ length frames.now + 1 }
        requires frames { AreFrames self.now.problem.now self.now.bounds.now (take (length frames.now) (V.context self.now.view.now)) frames.now }
        requires some { 0 < length frames.now }
        requires open { HasClose self.now.problem.now (V.context self.now.view.now) → ⊥ }
        requires no_assert { HasAssert self.now.problem.now self.now.bounds.now (V.context self.now.view.now) → ⊥ }
        ensures { IfOk result (λ f. IsFrame self.now.problem.now self.now.bounds.now (V.context self.now.view.now) (frames.now ++ f ∷ []) f) }
    {
        let last = last_of(frames);
        let unifiers = self.unifiers_from(last.positions())?;
        let step = self.split_step(frames, &unifiers)?;
        Ok(Frame {
            step,
            unifiers,
            searched: self.view.len(),
        })
    }

    /// The frame where there is no Close, and all Asserts without the last entry are kept.
    fn open_frame(&self, frames: &[Frame], asserts: &mut Asserts) -> Result<Frame, AllocError>
        requires valid { IsValid self.now.problem.now }
        requires bounds { IsLawful self.now.bounds.now }
        requires index { IsIndex (V.context self.now.view.now) self.now.entries.now }
        requires pairs { ArePairs self.now.problem.now (V.context self.now.view.now) self.now.pairs.now }
        requires each { length (V.context self.now.view.now) ≡ length frames.now + 1 }
        requires frames { AreFrames self.now.problem.now self.now.bounds.now (take (length frames.now) (V.context self.now.view.now)) frames.now }
        requires some { 0 < length frames.now }
        requires open { HasClose self.now.problem.now (V.context self.now.view.now) → ⊥ }
        requires asserts { HoldsAsserts self.now.problem.now self.now.bounds.now (take (length frames.now) (V.context self.now.view.now)) asserts.old }
        ensures frame { IfOk result (λ f. IsFrame self.now.problem.now self.now.bounds.now (V.context self.now.view.now) (frames.now ++ f ∷ []) f) }
        ensures asserts { OnOk result (HoldsAsserts self.now.problem.now self.now.bounds.now (V.context self.now.view.now) asserts.new) }
    {
        let newest = self.view.len() - 1;
        self.add_asserts_with(newest, asserts)?;
        if let Some(step) = self.assert_step(asserts)? {
            return Ok(same_search(self.alloc, step, last_of(frames)));
        }
        self.split_frame(frames)
    }

    /// The frame where without the last entry there was no Close, and all Asserts are kept.
    fn new_frame(&self, frames: &[Frame], asserts: &mut Asserts) -> Result<Frame, AllocError>
        requires valid { IsValid self.now.problem.now }
        requires bounds { IsLawful self.now.bounds.now }
        requires index { IsIndex (V.context self.now.view.now) self.now.entries.now }
        requires pairs { ArePairs self.now.problem.now (V.context self.now.view.now) self.now.pairs.now }
        requires each { length (V.context self.now.view.now) ≡ length frames.now + 1 }
        requires frames { AreFrames self.now.problem.now self.now.bounds.now (take (length frames.now) (V.context self.now.view.now)) frames.now }
        requires some { 0 < length frames.now }
        requires open { HasClose self.now.problem.now (take (length frames.now) (V.context self.now.view.now)) → ⊥ }
        requires asserts { HoldsAsserts self.now.problem.now self.now.bounds.now (take (length frames.now) (V.context self.now.view.now)) asserts.old }
        ensures frame { IfOk result (λ f. IsFrame self.now.problem.now self.now.bounds.now (V.context self.now.view.now) (frames.now ++ f ∷ []) f) }
        ensures asserts { IfOk result (λ f. is_close f.step ≡ false → HoldsAsserts self.now.problem.now self.now.bounds.now (V.context self.now.view.now) asserts.new) }
    {
        let newest = self.view.len() - 1;
        if let Some(closing) = self.closing(newest)? {
            return Ok(same_search(self.alloc, closing.into_step(), last_of(frames)));
        }
        self.open_frame(frames, asserts)
    }

    /// The frame where nothing is known of what there was without the last entry: all is searched.
    fn whole_frame(&self, frames: &[Frame], asserts: &mut Asserts) -> Result<Frame, AllocError>
        requires valid { IsValid self.now.problem.now }
        requires bounds { IsLawful self.now.bounds.now }
        requires index { IsIndex (V.context self.now.view.now) self.now.entries.now }
        requires pairs { ArePairs self.now.problem.now (V.context self.now.view.now) self.now.pairs.now }
        requires each { length (V.context self.now.view.now) ≡ length frames.now + 1 }
        requires frames { AreFrames self.now.problem.now self.now.bounds.now (take (length frames.now) (V.context self.now.view.now)) frames.now }
        requires some { 0 < length frames.now }
        ensures frame { IfOk result (λ f. IsFrame self.now.problem.now self.now.bounds.now (V.context self.now.view.now) (frames.now ++ f ∷ []) f) }
        ensures asserts { OnOk result (HoldsAsserts self.now.problem.now self.now.bounds.now (V.context self.now.view.now) asserts.new) }
    {
        self.add_all_asserts(asserts)?;
        let step = next_step(self.alloc, self.problem, self.view, self.bounds)?;
        Ok(same_search(self.alloc, step, last_of(frames)))
    }

    /// The frame of the last entry. The Asserts are all without it where they are fresh.
    pub(crate) fn frame(
        &self,
        frames: &[Frame],
        is_fresh: bool,
        asserts: &mut Asserts,
    ) -> Result<Frame, AllocError>
        requires valid { IsValid self.now.problem.now }
        requires bounds { IsLawful self.now.bounds.now }
        requires index { IsIndex (V.context self.now.view.now) self.now.entries.now }
        requires pairs { ArePairs self.now.problem.now (V.context self.now.view.now) self.now.pairs.now }
        requires each { length (V.context self.now.view.now) ≡ length frames.now + 1 }
        requires frames { AreFrames self.now.problem.now self.now.bounds.now (take (length frames.now) (V.context self.now.view.now)) frames.now }
        requires some { 0 < length frames.now }
        requires asserts { is_fresh ≡ true → HoldsAsserts self.now.problem.now self.now.bounds.now (take (length frames.now) (V.context self.now.view.now)) asserts.old }
        ensures frame { IfOk result (λ f. IsFrame self.now.problem.now self.now.bounds.now (V.context self.now.view.now) (frames.now ++ f ∷ []) f) }
        ensures asserts { IfOk result (λ f. is_close f.step ≡ false → HoldsAsserts self.now.problem.now self.now.bounds.now (V.context self.now.view.now) asserts.new) }
    {
        if is_settled(last_of(frames).next(), is_fresh) {
            return self.new_frame(frames, asserts);
        }
        self.whole_frame(frames, asserts)
    }
}
