ghost use Rattle.std.specs.Prelude.{◌≡◌, ℕ, ◌<◌, ◌≤◌, true, false, slice_get};
ghost use Rattle.std.specs.Option.{unwrap_or};
ghost use Rattle.docset.specs.Bits.{bit_set};
ghost use Rattle.docset.specs.Meaning.{calm, ones};
ghost use Rattle.leaves.specs.Lists.{kept_ids};
ghost use Rattle.leaves.specs.Ranges.{between};
ghost use Rattle.leaves.specs.Bits.{Few, bit_of, bits_from, bits_refusal, ones_in, stands};

use docset::docset::{DocSet, SeekDangerResult, TERMINATED};
use docset::refusal::Refusal;
use docset::scorer::Scorer;

// The ids whose bit is set in the caller's words, which are not copied, from `doc` on.
#[derive(Drop)]
pub struct BitSetDocSet<'a> {
    docs: &'a [u64],
    max_value: u32,
    // the number of ones
    len: u32,
    // TERMINATED at the end, as it is told
    doc: u32,
    ghost small: { max_value ≤ 2147483647 },
    ghost few: { Few docs.now },
    ghost clear: { (k : ℕ) → max_value ≤ k → bit_set docs.now k ≡ false },
    ghost counted: { len ≡ ones_in docs.now },
    ghost current: { stands docs.now doc ≡ true },
}

// The lowest bit of the word, from a bit on, that is set.
fn lowest_bit(word: u64, from: u32) -> Option<u32>
    requires { from < 64 }
    ensures { result ≡ slice_get (between (bit_of word) from 64) 0 }
{
    let rest = word >> from;
    if rest == 0 {
        return None;
    }
    Some(from + rest.trailing_zeros())
}

// The first id from `from` on whose bit is set.
fn first_bit(words: &[u64], from: u32) -> Option<u32>
    requires { Few words.now }
    ensures { result ≡ slice_get (bits_from words.now from) 0 }
{
    let mut bit = from % 64;
    // By the places, as `skip` would go over the words before the first one by one.
    for place in (from / 64) as usize..words.len() {
        if let Some(lowest) = lowest_bit(words[place], bit) {
            return Some((place * 64) as u32 + lowest);
        }
        bit = 0;
    }
    None
}

// The same, with TERMINATED for none.
fn doc_from(words: &[u64], from: u32) -> u32
    requires { Few words.now }
    ensures { result ≡ unwrap_or (slice_get (bits_from words.now from) 0) 2147483647 }
{
    first_bit(words, from).unwrap_or(TERMINATED)
}

// The number of ones.
fn count_ones(words: &[u64]) -> u32
    requires { Few words.now }
    ensures { result ≡ ones_in words.now }
{
    words.iter().map(|word| word.count_ones()).sum()
}

// Why words are refused for a segment of `max_value` documents, if they are.
pub fn check_bits(words: &[u64], max_value: u32) -> Option<Refusal>
    ensures { result ≡ bits_refusal words.now max_value }
{
    if max_value > TERMINATED {
        return Some(Refusal::SegmentTooLarge);
    }
    if words.len() != max_value.div_ceil(64) as usize {
        return Some(Refusal::WrongWordCount);
    }
    first_bit(words, max_value).map(|_| Refusal::BitPastEnd)
}

impl<'a> BitSetDocSet<'a> {
    // A leaf over these bits, from the first that is set on, or an empty leaf beside the reason why.
    pub fn new(docs: &'a [u64], max_value: u32) -> (Option<Refusal>, BitSetDocSet<'a>)
        ensures answer { result.0 ≡ bits_refusal docs.now max_value }
        ensures over { result.1.docs.now ≡ kept_ids result.0 docs.now }
        ensures fresh { bits_from result.1.docs.now result.1.doc ≡ bits_from result.1.docs.now 0 }
    {
        match check_bits(docs, max_value) {
            Some(refusal) => {
                (
                    Some(refusal),
                    BitSetDocSet {
                        docs: &docs[0..0],
                        max_value: 0,
                        len: 0,
                        doc: TERMINATED,
                    },
                )
            }
            None => {
                let len = count_ones(docs);
                let doc = doc_from(docs, 0);
                (
                    None,
                    BitSetDocSet {
                        docs,
                        max_value,
                        len,
                        doc,
                    },
                )
            }
        }
    }
}

impl<'a> DocSet for BitSetDocSet<'a> {
    ghost meaning = { λ s. calm (ones (bits_from s.docs.now s.doc)) };

    ghost hint = { λ s. ones_in s.docs.now };

    ghost price = { λ s. ones_in s.docs.now };

    fn doc(&self) -> u32 {
        self.doc
    }

    fn advance(&mut self) -> u32 {
        if self.doc != TERMINATED {
            self.doc = doc_from(self.docs, self.doc + 1);
        }
        self.doc
    }

    fn seek(&mut self, target: u32) -> u32 {
        if target <= self.doc {
            return self.doc;
        }
        if target >= self.max_value {
            self.doc = TERMINATED;
            return TERMINATED;
        }
        self.doc = doc_from(self.docs, target);
        self.doc
    }

    fn seek_danger(&mut self, target: u32) -> SeekDangerResult {
        self.probe_by_seek(target)
    }

    fn size_hint(&self) -> u32 {
        self.len
    }

    fn cost(&self) -> u64 {
        self.len as u64
    }
}

impl<'a> Scorer for BitSetDocSet<'a> {
    fn score(&mut self) -> f32 {
        if self.doc != TERMINATED { 1.0 } else { 0.0 }
    }
}
