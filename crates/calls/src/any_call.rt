// Any call of the machine, by one function.
ghost use Rattle.std.specs.Prelude.{◌≡◌, length};
ghost use Rattle.answers.specs.declared.Refusal.TheVariants.{BadTable};
ghost use Rattle.model.specs.Meant as meant;
ghost use Rattle.calls.specs.Ran.{Ran, no_starts, starts_refused, none_for};

use answers::Refusal;
use model::{Answer, Call, Counted, SLOTS};
use regions::list::put_zeros;
use soundness::is_sound;
use step::answer::{is_counted, refused};
use step::step;

// Runs a call as the function of its name does. The calls that list starts put them into `starts`, which is 64 words; no other call
// changes it, and of another length it is BadTable.
pub fn run(
    words: &mut [u64],
    frames: &mut [u8],
    files: &[u8],
    starts: &mut [u64],
    call: Call,
) -> Answer
    ensures { Ran call words.old frames.old files.now starts.old words.new frames.new starts.new result }
{
    if starts.len() != SLOTS {
        return refused(call, Refusal::BadTable);
    }
    if !is_sound(&words[..], &frames[..], files) {
        return refuse(starts, call);
    }
    step(words, frames, files, starts, call)
}

// BadTable: where the call lists starts, there are none.
fn refuse(starts: &mut [u64], call: Call) -> Answer
    requires { length starts.old ≡ 64 }
    ensures value { result ≡ meant.refused call BadTable }
    ensures starts_after { starts.new ≡ starts_refused (meant.counts result) starts.old }
{
    let answer = refused(call, Refusal::BadTable);
    if is_counted(answer) {
        put_zeros(starts);
    }
    answer
}

// BadTable of a call that lists starts.
pub fn none() -> Counted
    ensures { result ≡ none_for BadTable }
{
    Counted {
        done: Err(Refusal::BadTable),
        count: 0,
    }
}

// The same, and no starts.
pub fn put_none(starts: &mut [u64]) -> Counted
    requires { length starts.old ≡ 64 }
    ensures value { result ≡ none_for BadTable }
    ensures starts_after { starts.new ≡ no_starts }
{
    put_zeros(starts);
    none()
}
