// Prints what the combiners tell and what `estimate_union` answers for a table of inputs, a row on each line of the
// input. The file `stdout` has what the Rust answers, so that the run of this program compares the two.
#![tactic(auto)]

use anyhow::anyhow;
use combiner::score_combiner::{DisjunctionMaxCombiner, DoNothingCombiner, SumCombiner, combine};
use combiner::size_hint::estimate_union;
use std::num::{f32_from_bits_with_nan, f32_to_bits_with_nan};

// A score, written as the eight hexadecimal digits of its bits.
fn read_score(word: &str) -> anyhow::Result<f32> {
    Ok(f32_from_bits_with_nan(u32::from_str_radix(word, 16)?))
}

fn read_size(word: &str) -> anyhow::Result<u32> {
    Ok(word.parse::<u32>()?)
}

// The answer for a row of scores, whose first word says which combiner.
fn combined(name: &str, scores: &[f32]) -> anyhow::Result<f32> {
    match name {
        "nothing" => Ok(combine(&DoNothingCombiner, scores)),
        "sum" => Ok(combine(&SumCombiner, scores)),
        "max" => {
            let [tie_breaker, scores @ ..] = scores else {
                return Err(anyhow!("no tie-breaker"));
            };
            match DisjunctionMaxCombiner::with_tie_breaker(*tie_breaker) {
                (None, combiner) => Ok(combine(&combiner, scores)),
                (Some(_), _) => Err(anyhow!("a tie-breaker that is refused")),
            }
        }
        _ => Err(anyhow!("no such combiner")),
    }
}

fn estimated(numbers: &[u32]) -> anyhow::Result<u32> {
    match numbers {
        [max_docs, sizes @ ..] => Ok(estimate_union(sizes, *max_docs)),
        [] => Err(anyhow!("no number of documents")),
    }
}

fn print_answer(rt: &HostRuntime, row: &str) -> anyhow::Result<()> {
    let (name, rest) = row.split_once(' ').unwrap_or((row, ""));
    if name == "union" {
        let numbers: Vec<u32> = rest
            .split_whitespace()
            .map(read_size)
            .try_collect(rt.alloc())?;
        let answer = estimated(numbers.as_slice())?;
        println!(rt; "{answer}")?;
    } else {
        let scores: Vec<f32> = rest
            .split_whitespace()
            .map(read_score)
            .try_collect(rt.alloc())?;
        let answer = f32_to_bits_with_nan(combined(name, scores.as_slice())?);
        println!(rt; "{answer:08X}")?;
    }
    Ok(())
}

fn run(rt: &HostRuntime) -> anyhow::Result<()> {
    for row in rt.lines(rt.alloc()) {
        print_answer(rt, row?.as_str())?;
    }
    Ok(())
}

fn main(rt: HostRuntime) -> anyhow::Result<()> {
    run(&rt)
}
