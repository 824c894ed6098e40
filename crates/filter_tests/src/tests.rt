use bank::bank::{NoSets, Sets};
use combiner::score_combiner::SumCombiner;
use docset::docset::{DocSet, TERMINATED};
use docset::scorer::Scorer;
use exclude::exclude::{AnyOf, Exclude, ExclusionSet, OneSet};
use leaves::vec_docset::VecDocSet;
use scored::boost_scorer::BoostScorer;
use scored::reqopt_scorer::RequiredOptionalScorer;
use std::cell::Cell;

// What an exclusion was asked: how often, for which id last, and whether an id was not above the one before it.
#[derive(Drop)]
struct Record {
    times: Cell<u32>,
    last: Cell<Option<u32>>,
    fell: Cell<bool>,
}

impl Record {
    fn note(&self, doc: u32) {
        if self.last.get().is_some_and(|last| doc <= last) {
            self.fell.set(true);
        }
        self.times.set(self.times.get().saturating_add(1));
        self.last.set(Some(doc));
    }
}

// An exclusion that keeps such a record.
#[derive(Drop)]
struct Recorded<'a, E> {
    exclusion: E,
    record: &'a Record,
}

impl<'a, E: ExclusionSet> ExclusionSet for Recorded<'a, E> {
    ghost lists = { λ r. E.ExclusionSet.lists r.exclusion };

    fn contains(&mut self, doc: u32) -> bool {
        self.record.note(doc);
        self.exclusion.contains(doc)
    }
}

// Seeks at, below and above the current document, a probe and advances: the id that the last advance answers.
fn walk<S: DocSet>(set: &mut S) -> u32 {
    set.seek(1);
    set.seek(0);
    set.advance();
    set.seek_danger(3);
    set.seek(3);
    set.seek(4);
    set.seek(8);
    set.advance()
}

// The documents asked for strictly rise: each is asked for once.
#[test]
fn an_exclusion_is_asked_once_for_a_document(rt: HostRuntime) {
    let record = Record {
        times: Cell::new(0),
        last: Cell::new(None),
        fell: Cell::new(false),
    };
    let (_, seen) = VecDocSet::new(&[2, 5]);
    let (_, all) = VecDocSet::new(&[1, 2, 3, 5, 8, 9]);
    let exclusion = Recorded {
        exclusion: OneSet::new(seen),
        record: &record,
    };
    let mut set = Exclude::new(all, exclusion);
    let last = walk(&mut set);
    assert_eq!(rt; last, 9);
    assert_eq!(rt; record.times.get(), 6);
    assert!(rt; !record.fell.get());
}

// The first three ids of a set, and its scores there.
fn first_three<S: Scorer>(mut set: S) -> ([u32; 3], [f32; 3]) {
    let first = set.doc();
    let first_score = set.score();
    let second = set.advance();
    let second_score = set.score();
    let third = set.advance();
    let third_score = set.score();
    (
        [first, second, third],
        [first_score, second_score, third_score],
    )
}

#[test]
fn a_bank_is_left_out_whole(rt: HostRuntime) {
    let (_, one) = VecDocSet::new(&[1]);
    let (_, three) = VecDocSet::new(&[3]);
    let (_, all) = VecDocSet::new(&[1, 2, 3]);
    let bank = Sets::new(one, Sets::new(three, NoSets));
    let (ids, _) = first_three(Exclude::new(all, AnyOf::new(bank)));
    assert_eq!(rt; ids, [2, TERMINATED, TERMINATED]);
}

#[test]
fn a_bonus_adds_to_the_score(rt: HostRuntime) {
    let (_, required) = VecDocSet::new(&[1, 5, 9]);
    let (_, extras) = VecDocSet::new(&[5, 7]);
    let (_, optional) = BoostScorer::new(extras, 2.5);
    let set: RequiredOptionalScorer<VecDocSet, BoostScorer<VecDocSet>, SumCombiner> =
        RequiredOptionalScorer::new(required, optional);
    let (ids, scores) = first_three(set);
    assert_eq!(rt; ids, [1, 5, 9]);
    assert_eq!(rt; scores, [1.0, 3.5, 1.0]);
}

// A set that missed a probe serves as what is left out.
#[test]
fn a_set_that_missed_is_left_out(rt: HostRuntime) {
    let (_, mut seen) = VecDocSet::new(&[2, 5]);
    seen.seek_danger(3);
    let (_, all) = VecDocSet::new(&[4, 5, 6]);
    let (_, boosted) = BoostScorer::new(Exclude::new(all, OneSet::new(seen)), -3.0);
    let (ids, scores) = first_three(boosted);
    assert_eq!(rt; ids, [4, 6, TERMINATED]);
    assert_eq!(rt; scores, [-3.0, -3.0, 0.0]);
}
