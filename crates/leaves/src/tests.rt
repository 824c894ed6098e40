use crate::all_scorer::AllScorer;
use crate::bitset::BitSetDocSet;
use crate::vec_docset::VecDocSet;
use docset::alive_bitset::AliveBitSet;
use docset::docset::{DocSet, SeekDangerResult, TERMINATED};
use docset::refusal::Refusal;
use docset::scorer::Scorer;

#[test]
fn lists_are_refused(rt: HostRuntime) {
    let (refusal, set) = VecDocSet::new(&[4, 4]);
    assert_eq!(rt; refusal, Some(Refusal::NotRising(1)));
    assert_eq!(rt; set.size_hint(), 0);
    let (refusal, _) = VecDocSet::new(&[4, 4, 2147483647, 4294967295]);
    assert_eq!(rt; refusal, Some(Refusal::TooLarge(2)));
    let (refusal, set) = VecDocSet::new(&[]);
    assert_eq!(rt; refusal, None);
    assert_eq!(rt; set.doc(), TERMINATED);
}

#[test]
fn words_are_refused(rt: HostRuntime) {
    let (refusal, _) = BitSetDocSet::new(&[], 2147483648);
    assert_eq!(rt; refusal, Some(Refusal::SegmentTooLarge));
    let (refusal, _) = BitSetDocSet::new(&[0], 65);
    assert_eq!(rt; refusal, Some(Refusal::WrongWordCount));
    let (refusal, set) = BitSetDocSet::new(&[0x400], 10);
    assert_eq!(rt; refusal, Some(Refusal::BitPastEnd));
    assert_eq!(rt; set.cost(), 0);
    let (refusal, _) = BitSetDocSet::new(&[0x200], 10);
    assert_eq!(rt; refusal, None);
}

#[test]
fn bits_end_for_good(rt: HostRuntime) {
    let (_, mut set) = BitSetDocSet::new(&[0x22], 10);
    assert_eq!(rt; set.doc(), 1);
    assert_eq!(rt; set.seek(10), TERMINATED);
    assert_eq!(rt; set.advance(), TERMINATED);
}

#[test]
fn all_come_in_blocks(rt: HostRuntime) {
    let (_, mut set) = AllScorer::new(65);
    let mut buffer = [7u32; 64];
    assert_eq!(rt; set.fill_buffer(&mut buffer), 64);
    assert_eq!(rt; buffer[63], 63);
    assert_eq!(rt; set.fill_buffer(&mut buffer), 1);
    assert_eq!(rt; buffer[0], 64);
    assert_eq!(rt; buffer[1], 1);
    assert_eq!(rt; set.score(), 0.0);
}

#[test]
fn the_last_id(rt: HostRuntime) {
    let (_, mut set) = VecDocSet::new(&[3, 2147483646]);
    assert_eq!(rt;
        set.seek_danger(4),
        SeekDangerResult::SeekLowerBound(2147483646)
    );
    assert_eq!(rt; set.seek_danger(2147483646), SeekDangerResult::Found);
    assert_eq!(rt; set.advance(), TERMINATED);
}

#[test]
fn counts_leave_out_the_deleted(rt: HostRuntime) {
    let (_, set) = VecDocSet::new(&[0, 1, 64, 200]);
    assert_eq!(rt; set.count(&AliveBitSet::new(&[2, 1])), 2);
}
