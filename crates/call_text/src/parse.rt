// What a line asks for: comments and blank lines, the call's name, its values, and the call that they make.
ghost use Rattle.std.specs.Prelude.{◌≡◌, ◌<◌, ◌≤◌, length, IfSome};
ghost use Rattle.call_text.specs.Parse.{held_call, call_in, name_of, call_named, finished_in, asked_of, machine_of, number_of};

use crate::asked::{Asked, Fault, LoneCall, Why, whole_fault, word_fault};
use crate::values::{Values, read_form};
use crate::word_list::place_of;
use call_words::call_of;
use model::Call;
use text::{Held, Word, next_word, without_return};

// What the line that is held asks for.
pub fn held_call(line: &[u8], held: Held) -> Asked
    requires { held.len ≤ length line.now }
    ensures { result ≡ held_call line.now held }
{
    if held.long {
        return Asked::Bad(whole_fault(Why::LongLine));
    }
    match parse(without_return(&line[..held.len])) {
        Ok(asked) => asked,
        Err(fault) => Asked::Bad(fault),
    }
}

// What a line asks for, given without its newline.
#[tactic(auto, unfolding(crate::specs::Parse::call_in))]
fn parse(line: &[u8]) -> Result<Asked, Fault>
    ensures { result ≡ call_in line.now }
{
    if line.is_empty() || line[0] == b'#' {
        return Ok(Asked::Nothing);
    }
    let word = next_word(line, 0);
    if word.from == word.to {
        return Ok(Asked::Nothing);
    }
    match name_of(&line[word.from..word.to]) {
        Some(name) => named(line, word, name),
        None => Err(word_fault(Why::UnknownCall, word)),
    }
}

// The place of a call's name.
#[tactic(auto, unfolding(crate::specs::Parse::name_of, crate::specs::WordList::codes))]
fn name_of(word: &[u8]) -> Option<u64>
    ensures value { result ≡ name_of word.now }
    ensures upper_bound { IfSome result (λ name. name < 28) }
{
    place_of(
        b"manager reserve mark release split segments file start state create open close remove clear carve covers \
        region regions fault populate eager clone_region clone protect pin unpin load store",
        28,
        word,
    )
}

// The call of a name, which is a word of the line. Forms have the four kinds of creation before the names; a creation's kind says the
// form of what is left.
#[tactic(auto, unfolding(crate::specs::Parse::call_named))]
fn named(line: &[u8], word: Word, name: u64) -> Result<Asked, Fault>
    requires { name < 28 }
    ensures { result ≡ call_named line.now word name }
{
    let place = name + 4;
    let values = read_form(line, Values::new(word.to), place)?;
    if place != 13 {
        return finished(line, word, place, values);
    }
    let kind = values.list[1];
    let values = read_form(line, values.first(), kind)?;
    finished(line, word, kind, values)
}

// The call at a place with its values, if no word is left in the line.
#[tactic(auto, unfolding(crate::specs::Parse::finished_in))]
fn finished(line: &[u8], name: Word, place: u64, values: Values) -> Result<Asked, Fault>
    ensures { result ≡ finished_in line.now name place values }
{
    let word = next_word(line, values.next);
    if word.from != word.to {
        return Err(word_fault(Why::TooManyWords, word));
    }
    asked_of(name, place, values.list)
}

// What the values ask for, by the call's place.
#[tactic(auto, unfolding(crate::specs::Parse::asked_of))]
fn asked_of(name: Word, place: u64, list: [u64; 10]) -> Result<Asked, Fault>
    ensures { result ≡ asked_of name place list }
{
    let [a, b, c, ..] = list;
    match place {
        4 => Ok(Asked::Lone(LoneCall::Manager(a, b))),
        5 => Ok(Asked::Lone(LoneCall::Reserve(a))),
        6 => Ok(Asked::Lone(LoneCall::Mark(a, b))),
        7 => Ok(Asked::Lone(LoneCall::Release(a, b))),
        8 => Ok(Asked::Lone(LoneCall::Split(a, b, c))),
        9 => Ok(Asked::Lone(LoneCall::Segments)),
        10 => Ok(Asked::File(
            a == 1,
            Word {
                from: b as usize,
                to: c as usize,
            },
        )),
        11 => Ok(Asked::Start(a)),
        12 => Ok(Asked::State),
        _ => machine_of(name, call_of(number_of(place), list)),
    }
}

#[tactic(auto, unfolding(crate::specs::Parse::machine_of))]
fn machine_of(name: Word, call: Option<Call>) -> Result<Asked, Fault>
    ensures { result ≡ machine_of name call }
{
    match call {
        Some(call) => Ok(Asked::Machine(call)),
        None => Err(word_fault(Why::UnknownCall, name)),
    }
}

// The machine's number of the call at a place; 0 where it is none of the machine's.
#[tactic(auto, unfolding(crate::specs::Parse::number_of))]
fn number_of(place: u64) -> u64
    ensures { result ≡ number_of place }
{
    NUMBERS.get(place as usize).copied().unwrap_or(0)
}

// In the order of forms. A table of `Option` is no plainer: 0 is the number of no call.
const NUMBERS: [u64; 32] = [
    4, 4, 5, 6, 0, 0, 0, 0, 0, 0, 0, 0, 0, 0, 2, 3, 7, 8, 9, 10, 11, 12, 13, 14, 15, 16, 17, 18,
    19, 20, 21, 22,
];
