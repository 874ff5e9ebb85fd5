// The machine's state as text, a line at a time: the whole is longer than a buffer of answers.
ghost use Rattle.std.specs.Prelude.{◌≡◌, ◌+◌, ◌<◌, ◌≤◌, length};
ghost use Rattle.model.specs.Layout.{word_count};
ghost use Rattle.state_text.specs.Left.{left};

use crate::cursor::{Cursor, Line, Shown};
use crate::lines::{end_row, pool_row, put_line, sum_row};
use crate::places::{passed, place_of};
use crate::sums::{is_in_use, sum_of};
use model::FRAME_BYTES;
use rows::WORD_COUNT;
use rows::backings::{frame_count, pool};
use text::Row;

// Puts what stands at a place of the state's text: a line, or nothing. What is left of the text falls each time, so it ends.
pub fn put_state(out: &mut [u8], at: usize, words: &[u64], frames: &[u8], cursor: Cursor) -> Shown
    requires { at + 4096 ≤ length out.old }
    ensures at_bound { result.at ≤ at + 4096 }
    ensures next_bound { left result.next < left (Some cursor) }
{
    let line = line_of(words, frames, cursor);
    let at = match line.row {
        Some(row) => put_line(out, at, row),
        None => at,
    };
    Shown {
        at,
        next: line.next,
    }
}

// What stands at a place.
#[tactic(auto, unfolding(crate::specs::Left::left))]
fn line_of(words: &[u64], frames: &[u8], cursor: Cursor) -> Line
    ensures { left result.next < left (Some cursor) }
{
    if words.len() != WORD_COUNT {
        return ended(None);
    }
    if 2313 <= cursor.place {
        return ended(Some(end_row()));
    }
    if 2057 <= cursor.place {
        return frame_line(words, frames, cursor.place - 2057, cursor);
    }
    if 0 < cursor.place {
        let i = cursor.place - 1;
        return place_of(words, i / 257, i % 257, cursor);
    }
    passed(Some(pool_row(frame_count(words), pool(words))), cursor)
}

// The end of the text.
fn ended(row: Option<Row>) -> Line
    ensures { result.next ≡ None }
{
    Line { row, next: None }
}

// The line of a frame, if it is in use and has bytes.
fn frame_line(words: &[u64], frames: &[u8], frame: usize, cursor: Cursor) -> Line
    requires words_len { length words.now ≡ word_count }
    requires frame_bound { frame < 256 }
    requires going { cursor.place < 2314 }
    ensures { left result.next < left (Some cursor) }
{
    let from = frame * FRAME_BYTES;
    match frames.get(from..from + FRAME_BYTES) {
        Some(bytes) if is_in_use(words, frame) => {
            passed(Some(sum_row(frame as u64, sum_of(bytes))), cursor)
        }
        _ => passed(None, cursor),
    }
}
