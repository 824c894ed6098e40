// The program of a placement box: reads a card and goes through its topics.
#![tactic(auto)]

mod lesson;
mod slip;

use anyhow::anyhow;
use std::{env, fs};

// What a box shows when it is given no card.
const SAMPLE: &str = "# evening class, first week
topic fractions: 2 5 8 13 21 34
topic equations 1.5: 3 5 13 22 40 41
topic word-problems 0.75: 1 5 8 22 35
bonus exam 2: 5 22
seen: 5 13 35
pick 5
";

fn main(rt: HostRuntime) -> anyhow::Result<()> {
    let mut args = env::args(&rt)?;
    let _ = args.next();
    match args.next() {
        Some(path) => {
            let Ok(text) = fs::read_to_string(&rt, path.as_str()) else {
                println!(rt; "{path} cannot be read")?;
                return Err(anyhow!("no card"));
            };
            lesson::show(&rt, path.as_str(), text.as_str())
        }
        None => lesson::show(&rt, "sample", SAMPLE),
    }
}
