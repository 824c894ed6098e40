// The text of one log.
use anyhow::{Context, anyhow};
use docset::docset::COLLECT_BLOCK_BUFFER_LEN;
use logs::call::Call;
use std::alloc::Global;

// What a block finds in its buffer: no id, so that the places which it leaves are seen.
const BLANK: u32 = 4294967295;

const NO_SIZE: &str = "a leaf without its number of documents";

const NO_TARGET: &str = "a call without its target";

#[derive(Drop)]
pub enum Leaf {
    // `v`: these ids.
    Ids(Vec<u32>),
    // `b`: so many documents, and the words of the bits.
    Bits(u32, Vec<u64>),
    // `a`: so many documents.
    All(u32),
}

// How a log ends, with the words of an alive set, which a `Last` would borrow.
#[derive(Drop)]
pub enum End {
    Open,
    // `c`: a count of the ids that are alive in these words.
    Alive(Vec<u64>),
    // `n`: a count of all.
    All,
}

#[derive(Drop)]
pub struct Script {
    pub calls: Vec<Call>,
    pub end: End,
}

fn read_number(word: &str) -> anyhow::Result<u32> {
    Ok(word.parse::<u32>()?)
}

fn read_word(word: &str) -> anyhow::Result<u64> {
    Ok(u64::from_str_radix(word, 16)?)
}

// The number that follows; the message is for where none does.
fn read_next(word: Option<&str>, message: &'static str) -> anyhow::Result<u32> {
    read_number(word.context(message)?)
}

pub fn read_leaf(heap: Global, text: &str) -> anyhow::Result<Leaf> {
    let mut words = text.split_whitespace();
    match words.next() {
        Some("v") => Ok(Leaf::Ids(words.map(read_number).try_collect(heap)?)),
        Some("b") => {
            let size = read_next(words.next(), NO_SIZE)?;
            Ok(Leaf::Bits(size, words.map(read_word).try_collect(heap)?))
        }
        Some("a") => Ok(Leaf::All(read_next(words.next(), NO_SIZE)?)),
        _ => Err(anyhow!("a leaf that is neither v, b nor a")),
    }
}

pub fn read_script(heap: Global, text: &str) -> anyhow::Result<Script> {
    let mut calls = Vec::new(heap);
    let mut words = text.split_whitespace();
    while let Some(word) = words.next() {
        let call = match word {
            "d" => Call::Doc,
            "s" => Call::Score,
            "a" => Call::Advance,
            "f" => Call::Block([BLANK; COLLECT_BLOCK_BUFFER_LEN]),
            "k" => Call::Seek(read_next(words.next(), NO_TARGET)?),
            "p" => Call::Probe(read_next(words.next(), NO_TARGET)?),
            "n" => {
                if words.next().is_some() {
                    return Err(anyhow!("a call after a count"));
                }
                return Ok(Script {
                    calls,
                    end: End::All,
                });
            }
            "c" => {
                let end = End::Alive(words.map(read_word).try_collect(heap)?);
                return Ok(Script { calls, end });
            }
            _ => return Err(anyhow!("a call that is not known")),
        };
        calls.push(call)?;
    }
    Ok(Script {
        calls,
        end: End::Open,
    })
}
