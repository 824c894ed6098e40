// Answers as text: an id as it is, a score by its bits, a buffer with its runs of one value as value*times.
use docset::docset::COLLECT_BLOCK_BUFFER_LEN;
use docset::refusal::Refusal;
use logs::call::Answer;
use std::fmt;
use std::num::f32_to_bits_with_nan;

// Of a refused leaf, which is empty: the number of the refusal, and the place of the id at fault.
#[derive(Drop)]
pub struct Refused(pub Refusal);

impl fmt::Display for Refused {
    fn fmt<W: fmt::Write>(&self, f: &mut fmt::Formatter<W>) -> fmt::Result {
        let number = self.0.number();
        match self.0.place() {
            Some(place) => write!(f, "refused {number} at {place}"),
            None => write!(f, "refused {number}"),
        }
    }
}

#[derive(Drop)]
struct Runs<'a>(&'a [u32; COLLECT_BLOCK_BUFFER_LEN]);

impl<'a> fmt::Display for Runs<'a> {
    fn fmt<W: fmt::Write>(&self, f: &mut fmt::Formatter<W>) -> fmt::Result {
        let buffer = self.0;
        for run in buffer.chunk_by(|value, next| value == next) {
            write!(f, " {}*{}", run[0], run.len())?;
        }
        Ok(())
    }
}

#[derive(Drop)]
pub struct Answered<'a>(pub &'a Answer);

impl<'a> fmt::Display for Answered<'a> {
    fn fmt<W: fmt::Write>(&self, f: &mut fmt::Formatter<W>) -> fmt::Result {
        match self.0 {
            Answer::Id(id) => write!(f, "{id}"),
            Answer::Points(score) => write!(f, "score {:08x}", f32_to_bits_with_nan(*score)),
            Answer::Hit => write!(f, "hit"),
            Answer::Miss => write!(f, "miss"),
            Answer::Written(written, buffer) => write!(f, "block of {written}:{}", Runs(buffer)),
            Answer::Number(number) => write!(f, "count {number}"),
        }
    }
}
