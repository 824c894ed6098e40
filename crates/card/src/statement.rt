// One line of a card.
ghost use Rattle.std.specs.Prelude.{◌≡◌, vec_items, ◌==◌, slice_index, MatchResult};
ghost use Rattle.std.specs.Option.{option_copied, ok_or};
ghost use Rattle.card.specs.declared.fault.CardFault.TheVariants.{OutOfMemory};
ghost use Rattle.card.specs.Text.{fields};
ghost use Rattle.card.specs.Faults.{Reads};
ghost use Rattle.card.specs.Statements.{word_of, ended, weight_in, count_in, seen_in, topic_in, plain, said, meant};

use crate::card::{MAX_PICK, MAX_TOPICS, Topic};
use crate::fault::CardFault;
use crate::text::{read_ids, read_name, read_number, read_weight, split_field, split_once};
use std::alloc::{AllocError, Global};

// The words that a line may begin with. They are told apart in `read_word` alone: of a match that also reads what
// stands behind the word, the last arm's proof does not close.
#[derive(Clone, Copy)]
enum Word {
    Topic,
    Bonus,
    Seen,
    Pick,
    AtLeast,
}

// What a line says.
#[derive(Drop)]
pub enum Statement {
    // A line that is blank or a note: one more statement, and no missing one.
    Nothing,
    Topic(Topic),
    Bonus(Topic),
    Seen(Vec<u32>),
    Pick(usize),
    AtLeast(usize),
}

fn read_word(field: &[u8]) -> Option<Word>
    ensures { result ≡ word_of field.now }
{
    match field {
        b"topic" => Some(Word::Topic),
        b"bonus" => Some(Word::Bonus),
        b"seen" => Some(Word::Seen),
        b"pick" => Some(Word::Pick),
        b"at-least" => Some(Word::AtLeast),
        _ => None,
    }
}

// Whether a field begins a line that says nothing.
fn is_note(field: &[u8]) -> bool
    ensures { result ≡ (slice_index field.now 0 == 35) }
{
    field.starts_with(b"#")
}

// What was read at a line: the fault is told where nothing was.
fn read_at<T: Drop>(
    line: usize,
    read: Result<Option<T>, AllocError>,
    fault: CardFault,
) -> Result<T, CardFault>
    ensures { MatchResult read (λ o. result ≡ ok_or o fault) (λ _. result ≡ Err (OutOfMemory line)) }
{
    read.map_err(|_| CardFault::OutOfMemory(line))?.ok_or(fault)
}

// Refuses a field where no more may stand.
fn no_more(line: usize, bytes: &[u8]) -> Result<(), CardFault>
    ensures { result ≡ ended line (fields bytes.now) }
{
    match split_field(bytes) {
        Some(_) => Err(CardFault::BadForm(line)),
        None => Ok(()),
    }
}

// The weight in what stands behind a name, 1 where nothing does.
fn weight_at(line: usize, bytes: &[u8]) -> Result<u32, CardFault>
    ensures { result ≡ weight_in line (fields bytes.now) }
{
    let Some((field, rest)) = split_field(bytes) else {
        return Ok(100);
    };
    no_more(line, rest)?;
    read_weight(field).ok_or(CardFault::BadWeight(line))
}

// What stands in a line behind its word.
#[derive(Clone, Copy)]
struct Rest<'a> {
    line: usize,
    // up to the first colon
    front: &'a [u8],
    // behind that colon, if there is one
    ids: Option<&'a [u8]>,
}

impl Rest<'_> {
    // What stands behind `topic` or `bonus`.
    fn topic(&self, heap: Global) -> Result<Topic, CardFault>
        ensures { Reads plain self.now.line result (topic_in self.now.line (fields self.now.front.now) (option_copied self.now.ids)) }
    {
        let line = self.line;
        let ids = self.ids.ok_or(CardFault::BadForm(line))?;
        let (name, rest) = split_field(self.front).ok_or(CardFault::BadForm(line))?;
        let name = read_at(line, read_name(heap, name), CardFault::BadName(line))?;
        let weight = weight_at(line, rest)?;
        let ids = read_at(line, read_ids(heap, ids), CardFault::BadNumber(line))?;
        Ok(Topic {
            name,
            weight,
            ids,
            line,
        })
    }

    // What stands behind `seen`.
    fn seen(&self, heap: Global) -> Result<Vec<u32>, CardFault>
        ensures { Reads vec_items self.now.line result (seen_in self.now.line (fields self.now.front.now) (option_copied self.now.ids)) }
    {
        let line = self.line;
        let ids = self.ids.ok_or(CardFault::BadForm(line))?;
        no_more(line, self.front)?;
        read_at(line, read_ids(heap, ids), CardFault::BadNumber(line))
    }

    // What stands behind `pick` or `at-least`: a number from 1 to `most`.
    fn count(&self, most: usize) -> Result<usize, CardFault>
        ensures { result ≡ count_in self.now.line most (fields self.now.front.now) (option_copied self.now.ids) }
    {
        let line = self.line;
        if self.ids.is_some() {
            return Err(CardFault::BadForm(line));
        }
        let (field, rest) = split_field(self.front).ok_or(CardFault::BadForm(line))?;
        no_more(line, rest)?;
        let count = read_number(field).ok_or(CardFault::BadNumber(line))? as usize;
        if count < 1 || count > most {
            return Err(CardFault::OutOfRange(line));
        }
        Ok(count)
    }
}

// What a line says, or its fault.
pub fn read_statement(heap: Global, line: usize, bytes: &[u8]) -> Result<Statement, CardFault>
    ensures { Reads meant line result (said line bytes.now) }
{
    let (head, ids) = split_once(bytes, b':');
    let Some((word, front)) = split_field(head) else {
        return match ids {
            Some(_) => Err(CardFault::UnknownWord(line)),
            None => Ok(Statement::Nothing),
        };
    };
    if is_note(word) {
        return Ok(Statement::Nothing);
    }
    let rest = Rest { line, front, ids };
    match read_word(word).ok_or(CardFault::UnknownWord(line))? {
        Word::Topic => rest.topic(heap).map(Statement::Topic),
        Word::Bonus => rest.topic(heap).map(Statement::Bonus),
        Word::Seen => rest.seen(heap).map(Statement::Seen),
        Word::Pick => rest.count(MAX_PICK).map(Statement::Pick),
        Word::AtLeast => rest.count(MAX_TOPICS).map(Statement::AtLeast),
    }
}
