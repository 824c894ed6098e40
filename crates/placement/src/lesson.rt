// What the box does with a card: for each topic a set over its exercises, gone through block by block.
ghost use Rattle.std.specs.Prelude.{◌≡◌, ◌≤◌, ◌-◌, length, IfOk, slice_get, vec_items};
ghost use Rattle.docset.specs.Meaning.{Steady, Known, RisingIds, ones, ids as listed_ids};
ghost use Rattle.leaves.specs.Lists.{ids_refusal, kept_ids};
ghost use Rattle.card.specs.Faults.{Reads};
ghost use Rattle.placement.specs.Lessons.{listed_count, leaf_read};

use crate::slip::show_slip;
use anyhow::anyhow;
use card::card::{Card, Topic, parse};
use card::fault::CardFault;
use docset::docset::{COLLECT_BLOCK_BUFFER_LEN, DocSet, SeekDangerResult};
use leaves::vec_docset::VecDocSet;
use std::alloc::{AllocError, Global};
use std::io;

// So many blocks of 64 hold 2147483647 ids, the most that a steady set has.
const MAX_BLOCKS: u32 = 33554432;

// The ids of a set, read in blocks of 64. A set that is not steady may go on for good: it is read for as many blocks as a steady one
// can have.
pub fn ids_by_blocks<S: DocSet>(heap: Global, mut set: S) -> Result<Vec<u32>, AllocError>
    ensures { IfOk result (λ v. Steady (S.meaning set) → v.items ≡ listed_ids (S.meaning set).pairs) }
{
    let mut ids = Vec::new(heap);
    let mut block = [0u32; COLLECT_BLOCK_BUFFER_LEN];
    // a steady set tells here that its ids rise, so that they are few enough
    let _doc = set.doc();
    for _turn in 0..MAX_BLOCKS {
        let filled = set.fill_buffer(&mut block);
        ids.extend_from_slice(&block[0..filled])?;
        if filled < COLLECT_BLOCK_BUFFER_LEN {
            return Ok(ids);
        }
    }
    Ok(ids)
}

// How many of these ids, which rise, the set has.
pub fn count_listed<S: DocSet>(mut set: S, ids: &[u32]) -> usize
    ensures bound { result ≤ length ids.now }
    ensures tells { Known (S.meaning set).mark → RisingIds 0 ids.now → result ≡ listed_count ids.now (S.meaning set).pairs }
{
    let mut count = 0;
    // a loop, since each probe changes the set
    for id in ids {
        if set.seek_danger(*id) == SeekDangerResult::Found {
            count += 1;
        }
    }
    count
}

// The ids of a line as a set over them hands them out, or the fault of the line.
pub fn leaf_ids(heap: Global, line: usize, ids: &[u32]) -> Result<Vec<u32>, CardFault>
    ensures { Reads vec_items line result (leaf_read line (ids_refusal ids.now) ids.now) }
{
    let (refusal, leaf) = VecDocSet::new(ids);
    if let Some(refusal) = refusal {
        return Err(CardFault::Ids(line, refusal));
    }
    ids_by_blocks(heap, leaf).map_err(|_| CardFault::OutOfMemory(line))
}

// The first id and the last one: functions of their own, so that the ids which are printed are promised.
pub fn first_of(ids: &[u32]) -> Option<u32>
    ensures { result ≡ slice_get ids.now 0 }
{
    ids.first().copied()
}

pub fn last_of(ids: &[u32]) -> Option<u32>
    ensures { result ≡ slice_get ids.now (length ids.now - 1) }
{
    ids.last().copied()
}

// How many of these ids, which rise, stand among those that were seen.
pub fn count_seen(ids: &[u32], seen: &[u32]) -> usize
    ensures bound { result ≤ length ids.now }
    ensures tells { RisingIds 0 ids.now → result ≡ listed_count ids.now (ones (kept_ids (ids_refusal seen.now) seen.now)) }
{
    let (_, leaf) = VecDocSet::new(seen);
    count_listed(leaf, ids)
}

// How much the topics so far held, and how much of that was seen.
#[derive(Clone, Copy, Default)]
struct Totals {
    exercises: usize,
    seen: usize,
}

// One line of the table.
fn show_row(rt: &HostRuntime, kind: &str, name: &str, ids: &[u32], seen: usize) -> io::Result<()> {
    let count = ids.len();
    match (first_of(ids), last_of(ids)) {
        (Some(first), Some(last)) => println!(rt;
            "{kind:<6}{name:<20}{count:>10}{first:>12}{last:>12}{seen:>8}"
        ),
        _ => println!(rt; "{kind:<6}{name:<20}{count:>10}           -           -{seen:>8}"),
    }
}

// Why a card is not shown to its end.
#[derive(Drop)]
enum Stop {
    Fault(CardFault),
    Output(io::Error),
}

impl From<CardFault> for Stop {
    fn from(fault: CardFault) -> Stop {
        Stop::Fault(fault)
    }
}

impl From<io::Error> for Stop {
    fn from(error: io::Error) -> Stop {
        Stop::Output(error)
    }
}

// Goes through one topic and prints its line.
fn show_topic(
    rt: &HostRuntime,
    kind: &str,
    topic: &Topic,
    seen: &[u32],
    totals: &mut Totals,
) -> Result<(), Stop> {
    let ids = leaf_ids(rt.alloc(), topic.line, topic.ids.as_slice())?;
    let met = count_seen(ids.as_slice(), seen);
    show_row(rt, kind, topic.name.as_str(), ids.as_slice(), met)?;
    totals.exercises = totals.exercises.saturating_add(ids.len());
    totals.seen = totals.seen.saturating_add(met);
    Ok(())
}

// Goes through a card and prints the table, up to the first line at fault.
fn show_card(rt: &HostRuntime, card: &Card) -> Result<(), Stop> {
    let seen = match &card.seen {
        Some(seen) => leaf_ids(rt.alloc(), seen.line, seen.value.as_slice())?,
        None => Vec::new(rt.alloc()),
    };
    println!(rt;
        "{:<26}{:>10}{:>12}{:>12}{:>8}",
        "", "exercises", "first", "last", "seen"
    )?;
    let mut totals = Totals::default();
    for topic in card.topics.iter() {
        show_topic(rt, "topic", topic, seen.as_slice(), &mut totals)?;
    }
    if let Some(bonus) = &card.bonus {
        // the bonus is not in the totals
        show_topic(rt, "bonus", bonus, seen.as_slice(), &mut Totals::default())?;
    }
    let count = card.topics.len();
    let exercises = totals.exercises;
    let met = totals.seen;
    println!(rt; "{count} topics, {exercises} exercises, {met} seen before")?;
    Ok(())
}

// Reads a card and shows its table.
fn read_and_show(rt: &HostRuntime, text: &str) -> Result<Card, Stop> {
    let card = parse(rt.alloc(), text)?;
    show_card(rt, &card)?;
    Ok(card)
}

// Reads a card and goes through it. A fault is told, and ends the run.
pub fn show(rt: &HostRuntime, name: &str, text: &str) -> anyhow::Result<()> {
    match read_and_show(rt, text) {
        Ok(card) => show_slip(rt, &card),
        Err(Stop::Fault(fault)) => {
            println!(rt; "{name}, {fault}")?;
            Err(anyhow!("a fault in the card"))
        }
        Err(Stop::Output(error)) => Err(error.into()),
    }
}
