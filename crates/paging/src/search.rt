// A page among a process's mapped pages: how many there are, the place of a page by halving, and what it is mapped to.
ghost use Rattle.std.specs.Prelude.{◌≡◌, ◌<◌, ◌≤◌, length, get_or};
ghost use Rattle.model.specs.Layout.{word_count, machine};
ghost use Rattle.model.specs.Machine.{no_mapping, mapped_of};
ghost use Rattle.paging.specs.Place.{place, stands_at, row_for, translate_by};
ghost use Rattle.paging.specs.ProcessRows.{rows_of};

use address::Page;
use model::{MAPPED_PAGES, Mapping};
use rows::pages::mapping_at;
use rows::processes::process_at;

// How many pages of a process are mapped.
pub fn mapped_count(words: &[u64], process: usize) -> usize
    requires words_len { length words.now ≡ word_count }
    requires process_bound { process < 8 }
    ensures value { result ≡ length (mapped_of (machine words.now) process) }
    ensures upper_bound { result ≤ 128 }
{
    let p = process_at(words, process);
    p.mapped.min(MAPPED_PAGES as u64) as usize
}

// A row of a process's 128.
pub fn row_at(words: &[u64], process: usize, i: usize) -> Mapping
    requires words_len { length words.now ≡ word_count }
    requires process_bound { process < 8 }
    requires i_bound { i < 128 }
    ensures { result ≡ get_or (rows_of (machine words.now) process) i no_mapping }
{
    mapping_at(words, process * MAPPED_PAGES + i)
}

// How many mapped pages stand below a page: its row if it is mapped, and else the row that it would get.
pub fn place(words: &[u64], process: usize, page: Page) -> usize
    requires words_len { length words.now ≡ word_count }
    requires process_bound { process < 8 }
    ensures value { result ≡ place (mapped_of (machine words.now) process) page.0 }
    ensures upper_bound { result ≤ length (mapped_of (machine words.now) process) }
{
    let mut lo = 0;
    let mut hi = mapped_count(words, process);
    while lo < hi {
        let mid = (lo + hi) / 2;
        let row = row_at(words, process, mid);
        if row.page < page {
            lo = mid + 1;
        } else {
            hi = mid;
        }
    }
    lo
}

// Whether a page is mapped in row i.
pub fn stands_at(words: &[u64], process: usize, i: usize, page: Page) -> bool
    requires words_len { length words.now ≡ word_count }
    requires process_bound { process < 8 }
    ensures { result ≡ stands_at (mapped_of (machine words.now) process) i page.0 }
{
    i < mapped_count(words, process) && row_at(words, process, i).page == page
}

// The row of a page, if it is mapped.
pub fn row_for(words: &[u64], process: usize, page: Page) -> Option<usize>
    requires words_len { length words.now ≡ word_count }
    requires process_bound { process < 8 }
    ensures { result ≡ row_for (mapped_of (machine words.now) process) page.0 }
{
    let at = place(words, process, page);
    if stands_at(words, process, at, page) {
        return Some(at);
    }
    None
}

// What a page is mapped to.
pub fn translate(words: &[u64], process: usize, page: Page) -> Option<Mapping>
    requires words_len { length words.now ≡ word_count }
    requires process_bound { process < 8 }
    ensures { result ≡ translate_by (mapped_of (machine words.now) process) page.0 }
{
    let at = row_for(words, process, page)?;
    Some(row_at(words, process, at))
}
