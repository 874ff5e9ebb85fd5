// Answers with lists of regions' starts, as text.
ghost use Rattle.std.specs.Prelude.{◌≡◌, ◌+◌, ◌≤◌, length};

use crate::answer::{Answer, put_answer, put_count};
use text::{put, put_hex_word};

// Puts an answer, with the starts that it lists.
pub fn put_listed(out: &mut [u8], at: usize, answer: Answer, starts: &[u64]) -> usize
    requires at_in_bounds { at + 4096 ≤ length out.old }
    requires starts_len { length starts.now ≡ 64 }
    ensures { result ≤ at + 4096 }
{
    let Answer::List(count) = answer else {
        return put_answer(out, at, answer);
    };
    let next = put_count(out, at, count);
    let next = put_hexes(out, next, &starts[..at_most_64(count)]);
    put(out, next, b"\n")
}

fn at_most_64(n: u64) -> usize
    ensures { result ≤ 64 }
{
    n.min(64) as usize
}

// Puts numbers, with a blank before each.
fn put_hexes(out: &mut [u8], at: usize, numbers: &[u64]) -> usize
    requires numbers_len { length numbers.now ≤ 64 }
    requires at_in_bounds { at + 1216 ≤ length out.old }
    ensures { result ≤ at + 1216 }
{
    let mut next = at;
    for &number in numbers {
        next = put_hex_word(out, next, number);
    }
    next
}
