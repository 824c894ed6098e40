// Reads a table of logs over leaves, one log to a line, makes the calls, and prints the answers, one line to a log.
//
// A line is a leaf, then `;`, then calls. The leaf is `v` and its ids, `b` and its number of documents and its words in hexadecimal, or
// `a` and its number of documents. The calls are d (id), s (score), a (advance), k N (seek), p N (probe), f (block); and last n (count all)
// or c (count alive) with the words of the alive set in hexadecimal. A line that is empty or begins with `#` is passed over.
#![tactic(auto)]

mod print;
mod read;

use anyhow::Context;
use docset::alive_bitset::AliveBitSet;
use docset::refusal::Refusal;
use docset::scorer::Scorer;
use leaves::all_scorer::AllScorer;
use leaves::bitset::BitSetDocSet;
use leaves::vec_docset::VecDocSet;
use logs::call::{Answer, Last};
use logs::replay::replay_to_end;
use print::{Answered, Refused};
use read::{End, Leaf, Script, read_leaf, read_script};
use std::alloc::{AllocError, Global};

// The answers of a set to a script. Each arm makes its own call: an alive set has to outlive the `Last` that holds it.
fn answers<S: Scorer>(heap: Global, set: S, script: &Script) -> Result<Vec<Answer>, AllocError> {
    let calls = script.calls.as_slice();
    match &script.end {
        End::Open => replay_to_end(heap, set, calls, Last::Keep),
        End::Alive(words) => {
            let alive = AliveBitSet::new(words.as_slice());
            replay_to_end(heap, set, calls, Last::Count(&alive))
        }
        End::All => replay_to_end(heap, set, calls, Last::CountIncludingDeleted),
    }
}

// Plays a script on what a builder answered.
fn play<S: Scorer>(
    rt: &HostRuntime,
    built: (Option<Refusal>, S),
    script: &Script,
) -> anyhow::Result<()> {
    let (refusal, set) = built;
    if let Some(refusal) = refusal {
        print!(rt; "{}, ", Refused(refusal))?;
    }
    let answers = answers(rt.alloc(), set, script)?;
    for answer in answers.as_slice() {
        print!(rt; "{}, ", Answered(answer))?;
    }
    println!(rt; "end")?;
    Ok(())
}

fn play_line(rt: &HostRuntime, line: &str) -> anyhow::Result<()> {
    let (leaf, calls) = line.split_once(';').context("a line without calls")?;
    let leaf = read_leaf(rt.alloc(), leaf)?;
    let script = read_script(rt.alloc(), calls)?;
    match leaf {
        Leaf::Ids(ids) => play(rt, VecDocSet::new(ids.as_slice()), &script),
        Leaf::Bits(size, words) => play(rt, BitSetDocSet::new(words.as_slice(), size), &script),
        Leaf::All(size) => play(rt, AllScorer::new(size), &script),
    }
}

fn play_table(rt: &HostRuntime) -> anyhow::Result<()> {
    for line in rt.lines(rt.alloc()) {
        let line = line?;
        if !line.is_empty() && !line.as_str().starts_with('#') {
            play_line(rt, line.as_str())?;
        }
    }
    Ok(())
}

fn main(rt: HostRuntime) -> anyhow::Result<()> {
    play_table(&rt)
}
