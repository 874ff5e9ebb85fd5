// Lines of a fixed form: a list of forms, numbers put into one of them.
ghost use Rattle.std.specs.Prelude.{◌≡◌, ◌++◌, take, replicate, ◌+◌, ◌≤◌, length};

use crate::words::{next_word, part_of};
use crate::write::{put, put_decimal, put_hex};
use std::slice::Iter;

// A form by its place in a list of forms, and the numbers that it takes in order. Forms stand between blanks. In a form `_` is a blank,
// `#` a number in decimal, `$` one in hexadecimal, `@` the word of that number in a list of words, and `~` a word of the input.
#[derive(Clone, Copy)]
pub struct Row {
    pub form: u64,
    pub numbers: [u64; 16],
}

impl Row {
    // A row of the numbers, up to 16; the others are 0.
    pub fn new(form: u64, numbers: &[u64]) -> Row
        ensures form { result.form ≡ form }
        ensures numbers { result.numbers ≡ take 16 (numbers.now ++ replicate 16 0) }
    {
        let mut all = [0; 16];
        let count = numbers.len().min(16);
        all[..count].copy_from_slice(&numbers[..count]);
        Row { form, numbers: all }
    }
}

// Puts a row. What may not fit the room is left out.
pub fn put_row(
    out: &mut [u8],
    at: usize,
    room: usize,
    row: Row,
    forms: &[u8],
    words: &[u8],
    shown: &[u8],
) -> usize
    requires { at + room ≤ length out.old }
    ensures { result ≤ at + room }
{
    let limit = at + room;
    let mut numbers = row.numbers.iter();
    let mut end = at;
    for &byte in nth_word(forms, row.form) {
        end = put_part(out, end, limit, byte, &mut numbers, words, shown);
    }
    end
}

// Puts what a byte of a form stands for, if the longest that it may be fits. A number past the row's last is 0.
fn put_part(
    out: &mut [u8],
    at: usize,
    limit: usize,
    byte: u8,
    numbers: &mut Iter<'_, u64>,
    words: &[u8],
    shown: &[u8],
) -> usize
    requires at_le_limit { at ≤ limit }
    requires limit_in_bounds { limit ≤ length out.old }
    ensures { result ≤ limit }
{
    if limit - at < 42 {
        return at;
    }
    match byte {
        b'#' => put_decimal(out, at, next_number(numbers)),
        b'$' => put_hex(out, at, next_number(numbers)),
        b'@' => put_shown(out, at, nth_word(words, next_number(numbers))),
        b'~' => put_shown(out, at, shown),
        b'_' => put(out, at, b" "),
        _ => put(out, at, &[byte]),
    }
}

fn next_number(numbers: &mut Iter<'_, u64>) -> u64 {
    numbers.next().copied().unwrap_or(0)
}

// A word of a list by its place, from 0; empty past the last.
fn nth_word(list: &[u8], n: u64) -> &[u8] {
    let mut at = 0;
    for _ in 0..n {
        at = next_word(list, at).to;
    }
    part_of(list, next_word(list, at))
}

// Puts the first 40 bytes, `?` for each that is not printable, and `..` where more follow.
fn put_shown(out: &mut [u8], at: usize, word: &[u8]) -> usize
    requires { at + 42 ≤ length out.old }
    ensures { result ≤ at + 42 }
{
    let n = word.len().min(40);
    for (to, &byte) in out[at..at + n].iter_mut().zip(word) {
        *to = if byte.is_ascii_graphic() { byte } else { b'?' };
    }
    if n < word.len() {
        put(out, at + n, b"..")
    } else {
        at + n
    }
}
