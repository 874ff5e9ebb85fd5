// Words of a line: runs of bytes between blanks.
ghost use Rattle.std.specs.Prelude.{◌≡◌, ◌+◌, ◌-◌, ◌≤◌, length, drop};
ghost use Rattle.text.specs.LineWords.{blank, blanks, letters, word_at, Lies};

// Where a word of a line starts and ends. It is empty if the line had no further word, and lies in the line if it is not.
// A slice is no plainer, because the specs of a fault and of a file name a word by its places.
#[derive(Clone, Copy)]
pub struct Word {
    pub from: usize,
    pub to: usize,
}

// The first word from `at` on.
#[tactic(auto, unfolding(crate::specs::LineWords::word_at))]
pub fn next_word(line: &[u8], at: usize) -> Word
    ensures value { result ≡ word_at line.now at }
    ensures lies { Lies (length line.now) at result }
{
    let from = at + blanks(line, at);
    Word {
        from,
        to: word_end(line, from),
    }
}

// The bytes of a word; none if it does not lie in the line.
pub fn part_of(line: &[u8], word: Word) -> &[u8] {
    line.get(word.from..word.to).unwrap_or(&[])
}

// The first place from `at` on with a blank.
pub fn word_end(line: &[u8], at: usize) -> usize
    ensures value { result ≡ at + letters (drop at line.now) }
    ensures lower_bound { (at ≤ result) × (result ≤ at + (length line.now - at)) }
{
    at + letters(line, at)
}

// How many blanks stand from `at` on.
#[tactic(auto, unfolding(crate::specs::LineWords::blanks))]
fn blanks(line: &[u8], at: usize) -> usize
    ensures value { result ≡ blanks (drop at line.now) }
    ensures upper_bound { result ≤ length line.now - at }
{
    rest(line, at)
        .iter()
        .take_while(|&&byte| is_blank(byte))
        .count()
}

// How many bytes that are no blanks stand from `at` on.
#[tactic(auto, unfolding(crate::specs::LineWords::letters))]
fn letters(line: &[u8], at: usize) -> usize
    ensures value { result ≡ letters (drop at line.now) }
    ensures upper_bound { result ≤ length line.now - at }
{
    rest(line, at)
        .iter()
        .take_while(|&&byte| !is_blank(byte))
        .count()
}

// The line from `at` on; nothing where it ends before. No `skip`: that steps over the bytes before `at`, so that a walk over the words of
// a line would cost the square of its length.
fn rest(line: &[u8], at: usize) -> &[u8]
    ensures { result.now ≡ drop at line.now }
{
    if at < line.len() { &line[at..] } else { &[] }
}

fn is_blank(byte: u8) -> bool
    ensures { result ≡ blank byte }
{
    byte == b' ' || byte == b'\t'
}
