// Makes calls on a set, and keeps the answers. On a steady set and calls that are legal on its list the answers are the plain list's log,
// and what is left is the plain list; on any set it is safe and ends.
ghost use Rattle.std.specs.Prelude.{◌≡◌, min, length, take, drop, IfOk, MatchResult};
ghost use Rattle.docset.specs.Meaning.{Meaning};
ghost use Rattle.logs.specs.Plain.{ongoing, end_of, last_answer};
ghost use Rattle.logs.specs.Runs.{Ended, Asked, Replayed};

use crate::call::{Answer, Call, Last};
use docset::docset::{DocSet, SeekDangerResult};
use docset::scorer::Scorer;
use std::alloc::{AllocError, Global};

// Makes one call.
pub fn ask<S: Scorer>(set: &mut S, call: &Call) -> Answer
    ensures { Asked call.now (S.DocSet.meaning set.old) (S.DocSet.meaning set.new) result }
{
    match call {
        Call::Doc => Answer::Id(set.doc()),
        Call::Score => Answer::Points(set.score()),
        Call::Advance => Answer::Id(set.advance()),
        Call::Seek(target) => Answer::Id(set.seek(*target)),
        Call::Probe(target) => match set.seek_danger(*target) {
            SeekDangerResult::Found => Answer::Hit,
            SeekDangerResult::SeekLowerBound(_) => Answer::Miss,
        },
        Call::Block(given) => {
            let mut buffer = *given;
            let written = set.fill_buffer(&mut buffer);
            Answer::Written(written, buffer)
        }
    }
}

// Makes the calls in turn. Where there is no memory for their answers, none is made: the set is as it was.
pub fn replay<S: Scorer>(
    heap: Global,
    set: &mut S,
    calls: &[Call],
) -> Result<Vec<Answer>, AllocError>
    ensures { MatchResult result (λ answers. Replayed (S.DocSet.meaning set.old) (S.DocSet.meaning set.new) calls.now ongoing answers.items) (λ _. set.new ≡ set.old) }
{
    let mut answers = Vec::with_capacity(heap, calls.len())?;
    for call in calls {
        let answer = ask(set, call);
        answers.push_reserved(answer);
    }
    Ok(answers)
}

// The same without memory of its own. Makes the calls in turn, as far as the caller's places reach, and tells how many it made. Later places are as they were.
pub fn replay_into<S: Scorer>(set: &mut S, calls: &[Call], answers: &mut [Answer]) -> usize
    ensures count { result ≡ min (length calls.now) (length answers.old) }
    ensures log { Replayed (S.DocSet.meaning set.old) (S.DocSet.meaning set.new) (take result calls.now) ongoing (take result answers.new) }
    ensures later { drop result answers.new ≡ drop result answers.old }
{
    let made = calls.len().min(answers.len());
    // By the place: of what a zip with `iter_mut` writes a proof knows nothing.
    for (place, call) in calls[..made].iter().enumerate() {
        answers[place] = ask(set, call);
    }
    made
}

// Makes the last call, which takes the set: the count, where a log ends with one.
pub fn count_at_end<S: DocSet>(set: S, last: Last) -> Option<u32>
    ensures { Ended (end_of last.entry) (S.DocSet.meaning set) (last_answer result) }
{
    match last {
        Last::Keep => None,
        Last::Count(alive_bitset) => Some(set.count(alive_bitset)),
        Last::CountIncludingDeleted => Some(set.count_including_deleted()),
    }
}

// Makes the calls in turn, and then the last one, which takes the set. The set is gone also where there is no memory for the answers.
pub fn replay_to_end<S: Scorer>(
    heap: Global,
    mut set: S,
    calls: &[Call],
    last: Last,
) -> Result<Vec<Answer>, AllocError>
    ensures { IfOk result (λ answers. ((n : Meaning) × Replayed (S.DocSet.meaning set) n calls.now (end_of last.entry) answers.items)) }
{
    let mut answers = replay(heap, &mut set, calls)?;
    if let Some(number) = count_at_end(set, last) {
        answers.push(Answer::Number(number))?;
    }
    Ok(answers)
}
