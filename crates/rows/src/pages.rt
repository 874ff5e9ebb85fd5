// Mapped pages, 1,024 rows of 3 words from word 6696, and page entries, 512 rows of 3 words from word 9768.
ghost use Rattle.std.specs.Prelude.{◌≡◌, ◌<◌, length, get_or, set};
ghost use Rattle.model.specs.Layout.{word_count, machine};
ghost use Rattle.model.specs.Machine.{no_mapping, no_entry, with_entries};
ghost use Rattle.rows.specs.With.{with_mapped_table};

use crate::{ENTRIES_AT, ENTRY_WORDS, MAPPED_AT, MAPPED_WORDS};
use address::{Page, PageTableFlags, PhysFrame};
use model::{Entry, Mapping};

// The row of a mapped page: place s of process p is row p * 128 + s.
pub fn mapping_at(words: &[u64], i: usize) -> Mapping
    requires words_len { length words.now ≡ word_count }
    requires i_bound { i < 1024 }
    ensures { result ≡ get_or (machine words.now).mapped i no_mapping }
{
    let at = MAPPED_AT + i * MAPPED_WORDS;
    Mapping {
        page: Page(words[at]),
        frame: PhysFrame(words[at + 1]),
        flags: PageTableFlags(words[at + 2]),
    }
}

// Puts a mapped page's row.
pub fn put_mapping(words: &mut [u64], i: usize, row: Mapping)
    requires words_len { length words.old ≡ word_count }
    requires i_bound { i < 1024 }
    ensures { machine words.new ≡ with_mapped_table (machine words.old) (set (machine words.old).mapped i row) }
{
    let at = MAPPED_AT + i * MAPPED_WORDS;
    words[at] = row.page.0;
    words[at + 1] = row.frame.0;
    words[at + 2] = row.flags.0;
}

// The row of a page entry.
pub fn entry_at(words: &[u64], i: usize) -> Entry
    requires words_len { length words.now ≡ word_count }
    requires i_bound { i < 512 }
    ensures { result ≡ get_or (machine words.now).entries i no_entry }
{
    let at = ENTRIES_AT + i * ENTRY_WORDS;
    Entry {
        owner: words[at],
        page: Page(words[at + 1]),
        frame: PhysFrame(words[at + 2]),
    }
}

// Puts a page entry's row.
pub fn put_entry(words: &mut [u64], i: usize, row: Entry)
    requires words_len { length words.old ≡ word_count }
    requires i_bound { i < 512 }
    ensures { machine words.new ≡ with_entries (machine words.old) (set (machine words.old).entries i row) }
{
    let at = ENTRIES_AT + i * ENTRY_WORDS;
    words[at] = row.owner;
    words[at + 1] = row.page.0;
    words[at + 2] = row.frame.0;
}
