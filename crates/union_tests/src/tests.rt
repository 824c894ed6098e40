use bank::bank::{NoSets, Sets};
use combiner::score_combiner::SumCombiner;
use docset::docset::{DocSet, TERMINATED};
use docset::refusal::Refusal;
use docset::scorer::Scorer;
use leaves::all_scorer::AllScorer;
use leaves::vec_docset::VecDocSet;
use scored::boost_scorer::BoostScorer;
use std::alloc::{AllocError, Global};
use std::test::Fail;
use union::buffered_union::BufferedUnionScorer;

// A set over these ids.
fn leaf(ids: &[u32]) -> VecDocSet<'_> {
    let (_, set) = VecDocSet::new(ids);
    set
}

// The union of two sets, by their sums.
fn sum<S: Scorer, T: Scorer>(
    first: S,
    second: T,
) -> BufferedUnionScorer<Sets<S, Sets<T, NoSets>>, SumCombiner> {
    let bank = Sets::new(first, Sets::new(second, NoSets));
    let (_, set) = BufferedUnionScorer::build(bank, SumCombiner, 10000);
    set
}

// The first six ids of a set.
fn first_six<S: DocSet>(mut set: S) -> [u32; 6] {
    let mut ids = [0u32; 6];
    let mut doc = set.doc();
    for id in ids.iter_mut() {
        *id = doc;
        doc = set.advance();
    }
    ids
}

// The first three scores.
fn first_scores<S: Scorer>(mut set: S) -> [f32; 3] {
    let mut scores = [0.0f32; 3];
    for score in scores.iter_mut() {
        *score = set.score();
        set.advance();
    }
    scores
}

#[test]
fn windows_meet_without_a_gap(rt: HostRuntime) {
    let set = sum(leaf(&[0, 4095, 4097]), leaf(&[4096, 8191]));
    assert_eq!(rt; first_six(set), [0, 4095, 4096, 4097, 8191, TERMINATED]);
}

#[test]
fn a_window_near_the_top_holds_no_end(rt: HostRuntime) {
    let set = sum(leaf(&[2147483646]), leaf(&[2147483640]));
    assert_eq!(rt;
        first_six(set),
        [
            2147483640, 2147483646, TERMINATED, TERMINATED, TERMINATED, TERMINATED,
        ]
    );
}

#[test]
fn scores_are_combined_in_bank_order(rt: HostRuntime) {
    let (_, large) = BoostScorer::new(leaf(&[0]), 1e8);
    let (_, small) = BoostScorer::new(leaf(&[0]), -1e8);
    let bank = Sets::new(large, Sets::new(leaf(&[0]), Sets::new(small, NoSets)));
    let (_, set) = BufferedUnionScorer::build(bank, SumCombiner, 1);
    assert_eq!(rt; first_scores(set), [0.0, 0.0, 0.0]);
}

// A block, and the document, the score and the next score after it.
fn after_a_block<S: Scorer>(mut set: S) -> (usize, u32, f32, u32, f32) {
    let mut block = [0u32; 64];
    let written = set.fill_buffer(&mut block);
    let doc = set.doc();
    let score = set.score();
    let next = set.advance();
    (written, doc, score, next, set.score())
}

#[test]
fn a_block_leaves_no_tally(rt: HostRuntime) {
    let (_, all) = AllScorer::new(64);
    let (written, doc, score, next, last) = after_a_block(sum(all, leaf(&[4096, 8192])));
    assert_eq!(rt; (written, doc), (64, 4096));
    assert_eq!(rt; (score, last), (1.0, 1.0));
    assert_eq!(rt; next, 8192);
}

// The sets that have not ended count: both reach past the first window, then one does, then none.
#[test]
fn the_hint_is_of_what_has_not_ended(rt: HostRuntime) {
    let (_, long) = AllScorer::new(8192);
    let (_, longer) = AllScorer::new(8193);
    let mut set = sum(long, longer);
    assert_eq!(rt; (set.size_hint(), set.cost()), (8813, 16385));
    set.seek(4096);
    assert_eq!(rt; (set.size_hint(), set.cost()), (6554, 8193));
    set.seek(8192);
    assert_eq!(rt; (set.size_hint(), set.cost()), (0, 0));
}

// Of the union of so many sets, each with the one id 0: why it is refused, and its score.
fn many(heap: Global, count: usize) -> Result<(Option<Refusal>, f32), AllocError> {
    let mut bank = Vec::new(heap);
    for _ in 0..count {
        let (_, all) = AllScorer::new(1);
        bank.push(all)?;
    }
    let (refusal, mut set) = BufferedUnionScorer::build(bank, SumCombiner, 8);
    Ok((refusal, set.score()))
}

#[test]
fn at_most_32_sets(rt: HostRuntime) -> Result<(), Fail> {
    assert_eq!(rt; many(rt.alloc(), 32)?, (None, 32.0));
    assert_eq!(rt; many(rt.alloc(), 33)?, (Some(Refusal::TooManySets), 0.0));
    Ok(())
}
