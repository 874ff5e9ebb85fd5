// Lists of words: which word of a list a word is, and the word at a place.
ghost use Rattle.std.specs.Prelude.{◌≡◌, ◌<◌, length, IfSome};
ghost use Rattle.call_text.specs.WordList.{place_in, nth_in, InList};

use text::{Word, next_word};

// The place of a word among the first `count` words of a list, from 0, if it is one of them.
pub fn place_of(list: &[u8], count: u64, word: &[u8]) -> Option<u64>
    ensures value { result ≡ place_in list.now count word.now }
    ensures upper_bound { IfSome result (λ place. place < count) }
{
    let mut at = 0;
    for i in 0..count {
        let listed = next_word(list, at);
        if word == &list[listed.from..listed.to] {
            return Some(i);
        }
        at = listed.to;
    }
    None
}

// The word of a list at a place, from 0.
pub fn word_at(list: &[u8], place: u64) -> Word
    ensures value { result ≡ nth_in list.now place }
    ensures in_list { InList (length list.now) result }
{
    let mut at = 0;
    for i in 0..place {
        at = next_word(list, at).to;
    }
    next_word(list, at)
}
