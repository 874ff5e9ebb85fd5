// The machine's tables among its lent words: rows are read and put by value, and nobody above sees a word.
#![tactic(auto)]

pub mod backings;
pub mod files;
pub mod pages;
pub mod processes;
pub mod sizes;
pub mod slots;

// The first word of each table: the processes' is word 0.
pub(crate) const SLOTS_AT: usize = 40;

pub(crate) const ORDER_AT: usize = 6184;

pub(crate) const MAPPED_AT: usize = 6696;

pub(crate) const ENTRIES_AT: usize = 9768;

pub(crate) const BACKINGS_AT: usize = 11304;

pub(crate) const FILES_AT: usize = 11818;

// The words of a row.
pub(crate) const PROCESS_WORDS: usize = 5;

pub(crate) const SLOT_WORDS: usize = 12;

pub(crate) const MAPPED_WORDS: usize = 3;

pub(crate) const ENTRY_WORDS: usize = 3;

pub(crate) const BACKING_WORDS: usize = 2;

pub(crate) const FILE_WORDS: usize = 3;

// The words of numbers that stand alone.
pub(crate) const POOL_FREE_AT: usize = 11816;

pub(crate) const POOL_NEXT_AT: usize = 11817;

pub(crate) const FRAME_COUNT_AT: usize = 11842;

pub(crate) const FILE_COUNT_AT: usize = 11843;

// How many words the machine's tables are.
pub const WORD_COUNT: usize = 11844;
