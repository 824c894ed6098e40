ghost use Rattle.std.specs.Prelude.{◌≡◌, ◌≤◌, ◌⊎◌, List, [], ◌∷◌};
ghost use Rattle.docset.specs.Meaning.{Meaning, TERM, Steady, calm, first_id};
ghost use Rattle.docset.specs.Calls.{Sought, Probed};
ghost use Rattle.bank.specs.Holding.{AllKnown};
ghost use Rattle.exclude.specs.Excluding.{Asked, Skipped, without, excluded};

use bank::bank::Bank;
use docset::docset::{DocSet, SeekDangerResult, TERMINATED};
use docset::scorer::Scorer;

// What a document set can be told to leave out: the ids of one or more lists.
//
// `lists` is what each of the sets that were moved in still lists. They answer nothing but `contains`.
pub trait ExclusionSet: Drop {
    ghost lists: { Self → List Meaning };

    // Whether any of the lists has the id. At most pairs below it are dropped, so that ids are asked for in rising order.
    fn contains(&mut self, doc: u32) -> bool
        ensures { Asked doc (lists self.old) (lists self.new) result };
}

// The ids of one set. It and `AnyOf` are two types: two implementations for all sets and all banks would overlap.
#[derive(Drop)]
pub struct OneSet<S> {
    set: S,
}

impl<S: DocSet> OneSet<S> {
    pub fn new(set: S) -> OneSet<S>
        ensures { result.set ≡ set }
    {
        OneSet { set }
    }
}

impl<S: DocSet> ExclusionSet for OneSet<S> {
    ghost lists = { λ e. S.DocSet.meaning e.set ∷ [] };

    fn contains(&mut self, doc: u32) -> bool {
        self.set.seek_danger(doc) == SeekDangerResult::Found
    }
}

// The ids of any set of a bank. The sets are probed in their order, up to the first that has the id.
#[derive(Drop)]
pub struct AnyOf<B> {
    bank: B,
}

impl<B: Bank> AnyOf<B> {
    pub fn new(bank: B) -> AnyOf<B>
        ensures { result.bank ≡ bank }
    {
        AnyOf { bank }
    }
}

impl<B: Bank> ExclusionSet for AnyOf<B> {
    ghost lists = { λ e. (B.Bank.rows e.bank).places };

    fn contains(&mut self, doc: u32) -> bool {
        self.bank.holds(doc)
    }
}

// The set stands at the candidate: it goes on to the first document from there that is not excluded.
fn next_kept<S: DocSet, E: ExclusionSet>(set: &mut S, exclusion: &mut E, mut candidate: u32) -> u32
    requires { candidate ≤ TERM }
    ensures { Skipped (S.DocSet.meaning set.old) (S.DocSet.meaning set.new) (E.ExclusionSet.lists exclusion.old) (E.ExclusionSet.lists exclusion.new) candidate result }
{
    while candidate != TERMINATED && exclusion.contains(candidate) {
        candidate = set.advance();
    }
    candidate
}

// The set below without the documents that the exclusion has. The scores are those of the set below.
#[derive(Drop)]
pub struct Exclude<S, E> {
    underlying: S,
    exclusion: E,
}

impl<S: DocSet, E: ExclusionSet> Exclude<S, E> {
    // It stands at the first document that is not excluded.
    pub fn new(mut underlying: S, mut exclusion: E) -> Exclude<S, E>
        ensures { Steady (S.DocSet.meaning underlying) → AllKnown (E.ExclusionSet.lists exclusion) → ⟦<Exclude<S, E> as DocSet>⟧.meaning result ≡ calm (without (E.ExclusionSet.lists exclusion) (S.DocSet.meaning underlying).pairs) }
    {
        let doc = underlying.doc();
        next_kept(&mut underlying, &mut exclusion, doc);
        Exclude {
            underlying,
            exclusion,
        }
    }
}

impl<S: DocSet, E: ExclusionSet> DocSet for Exclude<S, E> {
    ghost meaning = { λ x. excluded (S.DocSet.meaning x.underlying) (E.ExclusionSet.lists x.exclusion) };

    ghost hint = { λ x. S.DocSet.hint x.underlying };

    ghost price = { λ x. S.DocSet.hint x.underlying };

    fn doc(&self) -> u32 {
        self.underlying.doc()
    }

    fn advance(&mut self) -> u32 {
        let candidate = self.underlying.advance();
        next_kept(&mut self.underlying, &mut self.exclusion, candidate)
    }

    // A target at or below the current document asks the exclusion nothing: all is left as it was.
    fn seek(&mut self, target: u32) -> u32
        ensures sought { Sought target (⟦<Self as DocSet>⟧.meaning self.old) (⟦<Self as DocSet>⟧.meaning self.new) result }
        ensures untouched { Steady (S.DocSet.meaning self.old.underlying) → target ≤ first_id (S.DocSet.meaning self.old.underlying).pairs → self.new ≡ self.old }
    {
        let doc = self.underlying.doc();
        if target <= doc {
            return doc;
        }
        let candidate = self.underlying.seek(target);
        next_kept(&mut self.underlying, &mut self.exclusion, candidate)
    }

    // As `probe_by_seek`, with one more promise. A steady set stays steady. As with a seek, a target at or below the current document changes nothing,
    // nor does one that is no id.
    fn seek_danger(&mut self, target: u32) -> SeekDangerResult
        ensures probed { Probed target (⟦<Self as DocSet>⟧.meaning self.old) (⟦<Self as DocSet>⟧.meaning self.new) result }
        ensures stays { Steady (⟦<Self as DocSet>⟧.meaning self.old) → Steady (⟦<Self as DocSet>⟧.meaning self.new) }
        ensures untouched { Steady (S.DocSet.meaning self.old.underlying) → (target ≤ first_id (S.DocSet.meaning self.old.underlying).pairs) ⊎ (TERM ≤ target) → self.new ≡ self.old }
    {
        if target >= TERMINATED {
            return SeekDangerResult::SeekLowerBound(TERMINATED);
        }
        let doc = self.seek(target);
        SeekDangerResult::at(doc, target)
    }

    // The guess of the set below: what is excluded is not known beforehand.
    fn size_hint(&self) -> u32 {
        self.underlying.size_hint()
    }

    fn cost(&self) -> u64 {
        self.size_hint() as u64
    }
}

impl<S: Scorer, E: ExclusionSet> Scorer for Exclude<S, E> {
    fn score(&mut self) -> f32 {
        self.underlying.score()
    }
}
