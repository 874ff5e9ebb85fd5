// The page entries of a region from a page on, given to the region in another row.
ghost use Rattle.std.specs.Prelude.{◌≡◌, ◌<◌, length, get_or, set};
ghost use Rattle.model.specs.Layout.{word_count, machine};
ghost use Rattle.model.specs.Machine.{no_entry, with_entries};
ghost use Rattle.model.specs.Carve.{give_entries};
ghost use Rattle.split.specs.GivenEntries.{given};

use address::{Page, VirtAddr};
use model::{ENTRIES, Entry};
use rows::pages::{entry_at, put_entry};

// Gives an entry to another owner, where it is one owner's, from a page on.
fn give_entry(words: &mut [u64], i: usize, owner: u64, page: Page, new: u64)
    requires words_len { length words.old ≡ word_count }
    requires i_bound { i < 512 }
    ensures { machine words.new ≡ with_entries (machine words.old) (set (machine words.old).entries i (given owner page.0 new (get_or (machine words.old).entries i no_entry))) }
{
    let e = entry_at(&words[..], i);
    if e.owner != owner {
        return;
    }
    if e.page.0 < page.0 {
        return;
    }
    put_entry(words, i, Entry { owner: new, ..e });
}

// Gives the entries of the region in a row, from the page at an address on, to the region in another row.
pub fn give_entries(words: &mut [u64], row: usize, at: u64, new: usize)
    requires words_len { length words.old ≡ word_count }
    requires row_bound { row < 512 }
    requires bound { new < 512 }
    ensures { machine words.new ≡ give_entries (machine words.old) row at new }
{
    let page = Page::containing_address(VirtAddr(at));
    for i in 0..ENTRIES {
        give_entry(words, i, row as u64 + 1, page, new as u64 + 1);
    }
}
