// The operands of a call: what a word of the line says, by the operand's letter.
ghost use Rattle.std.specs.Prelude.{◌≡◌};
ghost use Rattle.call_text.specs.Operand.{operand_at, word_says, one_of, spot_says, digits_say, number_says, valued, wrong};

use crate::asked::{Fault, Why};
use crate::digits::spells_bytes;
use crate::word_list::place_of;
use text::{NumberError, Word, next_word};

// One value or two, and the place behind the operand.
#[derive(Clone, Copy)]
pub enum Read {
    One(u64, usize),
    Two(u64, u64, usize),
}

// The operand of a letter, from `at` on. Bytes may be missing: an empty file has none.
#[tactic(auto, unfolding(crate::specs::Operand::operand_at))]
pub fn read_operand(line: &[u8], at: usize, letter: u8) -> Result<Read, Fault>
    ensures { result ≡ operand_at line.now at letter }
{
    if letter == b'0' {
        return Ok(Read::One(0, at));
    }
    if letter == b'1' {
        return Ok(Read::One(1, at));
    }
    let word = next_word(line, at);
    if word.from != word.to {
        return word_says(letter, word, &line[word.from..word.to]);
    }
    if letter == b'H' {
        return Ok(Read::Two(word.from as u64, word.to as u64, word.to));
    }
    bad(Why::Missing, letter, word)
}

fn bad(why: Why, what: u8, word: Word) -> Result<Read, Fault>
    ensures { result ≡ wrong why what word }
{
    Err(Fault { why, what, word })
}

// What a word says, whose text is given.
#[tactic(auto, unfolding(crate::specs::Operand::word_says, crate::specs::WordList::codes))]
fn word_says(letter: u8, word: Word, text: &[u8]) -> Result<Read, Fault>
    ensures { result ≡ word_says letter word text.now }
{
    match letter {
        b'C' => one_of(b'C', word, text, b"cow copy", 2),
        b'T' => one_of(b'T', word, text, b"- thread", 2),
        b'W' => one_of(b'W', word, text, b"r w", 2),
        b'R' => one_of(b'R', word, text, b"unreadable readable", 2),
        b'K' => one_of(b'K', word, text, b"lazy eager file shared", 4),
        b'@' => spot_says(word, text),
        b'H' => digits_say(word, text),
        _ => number_says(letter, word, text),
    }
}

// One of the first `count` words of a list, by its place.
#[tactic(auto, unfolding(crate::specs::Operand::one_of))]
fn one_of(letter: u8, word: Word, text: &[u8], list: &[u8], count: u64) -> Result<Read, Fault>
    ensures { result ≡ one_of letter word text.now list.now count }
{
    match place_of(list, count, text) {
        Some(place) => Ok(Read::One(place, word.to)),
        None => bad(Why::Neither, letter, word),
    }
}

// `any`, or a start.
#[tactic(auto, unfolding(crate::specs::Operand::spot_says, crate::specs::WordList::codes))]
fn spot_says(word: Word, text: &[u8]) -> Result<Read, Fault>
    ensures { result ≡ spot_says word text.now }
{
    if text == b"any".as_slice() {
        return Ok(Read::Two(0, 0, word.to));
    }
    number_says(b'@', word, text)
}

// Bytes, as the place of their digits.
#[tactic(auto, unfolding(crate::specs::Operand::digits_say))]
fn digits_say(word: Word, text: &[u8]) -> Result<Read, Fault>
    ensures { result ≡ digits_say word text.now }
{
    if spells_bytes(text) {
        return Ok(Read::Two(word.from as u64, word.to as u64, word.to));
    }
    bad(Why::NoBytes, b'H', word)
}

#[tactic(auto, unfolding(crate::specs::Operand::number_says))]
fn number_says(letter: u8, word: Word, text: &[u8]) -> Result<Read, Fault>
    ensures { result ≡ number_says letter word text.now }
{
    match text::read_number(text) {
        Ok(value) => valued_as(letter, word, value),
        Err(NumberError::TooLarge) => bad(Why::TooLarge, letter, word),
        Err(NumberError::NoNumber) => bad(Why::NoNumber, letter, word),
    }
}

// A number: a start has 1 before it, and a byte is not above 255.
#[tactic(auto, unfolding(crate::specs::Operand::valued))]
fn valued_as(letter: u8, word: Word, value: u64) -> Result<Read, Fault>
    ensures { result ≡ valued letter word value }
{
    match letter {
        b'@' => Ok(Read::Two(1, value, word.to)),
        b'B' if 256 <= value => bad(Why::NoByte, letter, word),
        _ => Ok(Read::One(value, word.to)),
    }
}
