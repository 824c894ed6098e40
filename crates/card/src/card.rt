// A card, as a teacher writes it: one statement a line, fields parted by spaces. A line that is blank, or whose first
// field begins with `#`, says nothing.
//
//   topic NAME WEIGHT: ID ID ..   a topic and its exercises; at least one such line, at most 32
//   bonus NAME WEIGHT: ID ID ..   exercises that count for more; at most one such line
//   seen: ID ID ..                the exercises that the learner has seen; at most one such line
//   pick N                        how many to show, 1 to 64; 10 where it is not said; at most one such line
//   at-least K                    in how many topics an exercise must be, 1 to 32; 1 where it is not said; at most one such line
//
// NAME has letters, digits, `-` and `_`. WEIGHT is a number from 0 to 1000 with at most two decimals, and may be left
// out: then it is 1. ID is a decimal number up to 4294967295. That the ids of a line rise and stay below 2147483647 is
// not checked here: the set that is built over them does that, and its refusal is told with the line as `CardFault::Ids`.
ghost use Rattle.std.specs.Prelude.{◌≡◌, length, is_some, OnOk};
ghost use Rattle.card.specs.Faults.{Reads};
ghost use Rattle.card.specs.Statements.{plain, meant, topic as said_topic};
ghost use Rattle.card.specs.Cards.{weight_score, sketch, blank, once, taken, Parses, Limited, sketched};
ghost use Rattle.card.specs.Text.{lines};

use crate::fault::CardFault;
use crate::statement::{Statement, read_statement};
use crate::text::split_line;
use std::alloc::Global;
use std::num::nearest_u32_to_f32;

// The most topics that a card may have, so also the most in which an exercise can be.
pub const MAX_TOPICS: usize = 32;

// The most exercises that may be shown of a topic.
pub const MAX_PICK: usize = 64;

// How many are shown where a card does not say.
const DEFAULT_PICK: usize = 10;

// In how many topics an exercise must be where a card does not say.
const DEFAULT_AT_LEAST: usize = 1;

// The exercises of one topic, as they stand in their line.
#[derive(Drop)]
pub struct Topic {
    pub name: String,
    // in hundredths
    pub weight: u32,
    pub ids: Vec<u32>,
    pub line: usize,
}

impl Topic {
    // The weight as a number, rounded to the nearest.
    pub fn weight_f32(&self) -> f32
        ensures { result ≡ weight_score self.now.weight }
    {
        nearest_u32_to_f32(self.weight) / 100.0
    }
}

// What a line says, and which line. A topic has its line itself.
#[derive(Drop)]
pub struct Stated<T> {
    pub value: T,
    pub line: usize,
}

// None stands where no line says it.
#[derive(Drop)]
pub struct Card {
    pub topics: Vec<Topic>,
    pub bonus: Option<Topic>,
    pub seen: Option<Stated<Vec<u32>>>,
    pub pick: Option<Stated<usize>>,
    pub at_least: Option<Stated<usize>>,
}

// Puts a value where none stands yet.
fn put_once<T: Drop>(slot: &mut Option<T>, line: usize, value: T) -> Result<(), CardFault>
    ensures told { result ≡ once line (is_some slot.old) tt }
    ensures put { OnOk result (slot.new ≡ Some value) }
{
    if slot.is_some() {
        return Err(CardFault::Twice(line));
    }
    *slot = Some(value);
    Ok(())
}

impl Card {
    // A card on which nothing stands.
    fn new(heap: Global) -> Card
        ensures { sketch result ≡ blank }
    {
        Card {
            topics: Vec::new(heap),
            bonus: None,
            seen: None,
            pick: None,
            at_least: None,
        }
    }

    // The ids that the learner has seen.
    pub fn seen(&self) -> &[u32]
        ensures { result.now ≡ (sketch self.now).seen_ids }
    {
        match &self.seen {
            Some(seen) => seen.value.as_slice(),
            None => &[],
        }
    }

    // How many to show of a topic.
    pub fn pick(&self) -> usize
        ensures { result ≡ (sketch self.now).shown }
    {
        self.pick.as_ref().map_or(DEFAULT_PICK, |pick| pick.value)
    }

    // In how many topics an exercise must be.
    pub fn at_least(&self) -> usize
        ensures { result ≡ (sketch self.now).least }
    {
        self.at_least
            .as_ref()
            .map_or(DEFAULT_AT_LEAST, |least| least.value)
    }

    fn put_topic(&mut self, line: usize, topic: Topic) -> Result<(), CardFault>
        ensures { Reads (λ _. sketch self.new) line result (taken line (sketch self.old) (said_topic (plain topic))) }
    {
        if self.topics.len() >= MAX_TOPICS {
            return Err(CardFault::TooManyTopics(line));
        }
        self.topics
            .push(topic)
            .map_err(|_| CardFault::OutOfMemory(line))
    }

    // Takes in what a line says.
    fn put(&mut self, line: usize, statement: Statement) -> Result<(), CardFault>
        ensures { Reads (λ _. sketch self.new) line result (taken line (sketch self.old) (meant statement)) }
    {
        match statement {
            Statement::Nothing => Ok(()),
            Statement::Topic(topic) => self.put_topic(line, topic),
            Statement::Bonus(topic) => put_once(&mut self.bonus, line, topic),
            Statement::Seen(value) => put_once(&mut self.seen, line, Stated { value, line }),
            Statement::Pick(value) => put_once(&mut self.pick, line, Stated { value, line }),
            Statement::AtLeast(value) => put_once(&mut self.at_least, line, Stated { value, line }),
        }
    }
}

fn read_card(heap: Global, text: &str) -> Result<Card, CardFault>
    ensures { Parses text.now result }
{
    let mut card = Card::new(heap);
    // No `lines().enumerate()`: std's lines lose a carriage return, which is a byte like any other here, and `NoTopics` needs the
    // count after the last line too.
    let mut line: usize = 0;
    let mut left = text.as_bytes();
    while let Some((bytes, rest)) = split_line(left) {
        line += 1;
        let statement = read_statement(heap, line, bytes)?;
        card.put(line, statement)?;
        left = rest;
    }
    if card.topics.is_empty() {
        return Err(CardFault::NoTopics(line + 1));
    }
    Ok(card)
}

// Reads a card, or tells its first fault. Every card that is read keeps the limits; the rules on ids are the sets' own.
pub fn parse(heap: Global, text: &str) -> Result<Card, CardFault>
    ensures says { Parses text.now result }
    ensures limits { Limited (length (lines text.now)) (sketched result) }
{
    // that the limits are kept follows from what `read_card` promises
    read_card(heap, text)
}
