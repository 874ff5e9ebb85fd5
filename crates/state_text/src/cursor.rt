// A place in the text of the machine's state, and the places after it.
ghost use Rattle.std.specs.Prelude.{◌≡◌, ◌<◌};
ghost use Rattle.state_text.specs.Left.{left};

use address::Page;
use text::Row;

// A place in the text of the state. A number, and no enum of kinds of places, because `left` counts down from it.
#[derive(Clone, Copy)]
pub struct Cursor {
    // 0 for the line of all frames; then 257 places for each of 8 processes: its own line, 64 for attached regions, 64 for detached
    // ones, 128 for mapped pages; then 256 for frames in use, from 2057 on; then 2313 for the end.
    pub place: usize,
    // How many lines of the region at this place are put: its own, then one a page entry.
    pub shown: usize,
    // That region's row, and the page from which its next entry is looked for.
    pub row: usize,
    pub page: u64,
    // The start from which the process's next detached region is looked for.
    pub start: u64,
}

// A line of the text, if the place has one, and the place after it, if the text goes on.
#[derive(Clone, Copy)]
pub struct Line {
    pub row: Option<Row>,
    pub next: Option<Cursor>,
}

// Where the text put so far ends, and the place after it, if the text goes on.
#[derive(Clone, Copy)]
pub struct Shown {
    pub at: usize,
    pub next: Option<Cursor>,
}

impl Cursor {
    // The start of the text.
    pub fn new() -> Cursor {
        Cursor {
            place: 0,
            shown: 0,
            row: 0,
            page: 0,
            start: 0,
        }
    }

    // The next place, with the start from which a detached region is looked for.
    #[tactic(auto, unfolding(crate::specs::Left::left))]
    pub fn next(self, start: u64) -> Cursor
        requires { self.place < 2314 }
        ensures { left (Some result) < left (Some self) }
    {
        Cursor {
            place: self.place + 1,
            start,
            ..Cursor::new()
        }
    }

    // The same place once its region's line is put.
    #[tactic(auto, unfolding(crate::specs::Left::left))]
    pub fn inside(self, row: usize, start: u64) -> Cursor
        requires { self.shown ≡ 0 }
        ensures { left (Some result) < left (Some self) }
    {
        Cursor {
            place: self.place,
            shown: 1,
            row,
            page: 0,
            start,
        }
    }

    // The same place once the entry of a page is put.
    #[tactic(auto, unfolding(crate::specs::Left::left))]
    pub fn past(self, page: Page) -> Cursor
        requires { self.shown < 513 }
        ensures { left (Some result) < left (Some self) }
    {
        Cursor {
            shown: self.shown + 1,
            page: page.0.wrapping_add(1),
            ..self
        }
    }
}
