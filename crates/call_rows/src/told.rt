// Answers as numbers and values (RULES E, O1).
ghost use Rattle.std.specs.Prelude.{◌≡◌, [], ℕ, cond, length, set};
ghost use Rattle.model.specs.Answers.{of_done, of_opened, of_placed, of_covering, of_loaded};
ghost use Rattle.model.specs.Meant.{reply};
ghost use Rattle.call_rows.specs.Told.{of_value, first_value};

use address::VirtAddr;
use answers::Refusal;
use model::{Answer, Counted};

// What one word tells.
trait Told {
    ghost word: { Self → ℕ };

    fn word(self) -> u64
        ensures { result ≡ word self };
}

impl Told for u64 {
    ghost word = { λ n. n };

    fn word(self) -> u64 {
        self
    }
}

impl Told for VirtAddr {
    ghost word = { λ addr. addr.0 };

    fn word(self) -> u64 {
        self.0
    }
}

impl Told for bool {
    ghost word = { λ b. cond b 1 0 };

    fn word(self) -> u64 {
        self as u64
    }
}

impl Told for u8 {
    ghost word = { λ n. n };

    fn word(self) -> u64 {
        self as u64
    }
}

pub fn tell_done(answer: Result<(), Refusal>) -> u64
    ensures { result ≡ (of_done answer).number }
{
    match answer {
        Ok(()) => 0,
        Err(refusal) => refusal.number(),
    }
}

// An answer with a value: its word, or 0 in its place.
fn tell_value<T: Told>(answer: Result<T, Refusal>, out: &mut [u64]) -> u64
    requires { length out.old ≡ 1 }
    ensures value { result ≡ (of_value T.word answer).number }
    ensures out_after { out.new ≡ (of_value T.word answer).values }
{
    match answer {
        Ok(value) => {
            out[0] = value.word();
            0
        }
        Err(refusal) => {
            out[0] = 0;
            refusal.number()
        }
    }
}

pub fn tell_opened(answer: Result<u64, Refusal>, out: &mut [u64]) -> u64
    requires { length out.old ≡ 1 }
    ensures value { result ≡ (of_opened answer).number }
    ensures out_after { out.new ≡ (of_opened answer).values }
{
    tell_value(answer, out)
}

pub fn tell_placed(answer: Result<VirtAddr, Refusal>, out: &mut [u64]) -> u64
    requires { length out.old ≡ 1 }
    ensures value { result ≡ (of_placed answer).number }
    ensures out_after { out.new ≡ (of_placed answer).values }
{
    tell_value(answer, out)
}

pub fn tell_covering(answer: Result<bool, Refusal>, out: &mut [u64]) -> u64
    requires { length out.old ≡ 1 }
    ensures value { result ≡ (of_covering answer).number }
    ensures out_after { out.new ≡ (of_covering answer).values }
{
    tell_value(answer, out)
}

pub fn tell_loaded(answer: Result<u8, Refusal>, out: &mut [u64]) -> u64
    requires { length out.old ≡ 1 }
    ensures value { result ≡ (of_loaded answer).number }
    ensures out_after { out.new ≡ (of_loaded answer).values }
{
    tell_value(answer, out)
}

// The count of starts that stand behind it.
pub fn tell_counted(answer: Counted, out: &mut [u64]) -> u64
    requires { length out.old ≡ 65 }
    ensures value { result ≡ (of_done answer.done).number }
    ensures out_after { out.new ≡ set out.old 0 answer.count }
{
    out[0] = answer.count;
    let done = answer.done;
    tell_done(done)
}

// The answer of any call: its first value, or 0, in front of what stands there.
pub fn tell_answer(answer: Answer, out: &mut [u64]) -> u64
    requires { length out.old ≡ 65 }
    ensures value { result ≡ (reply answer []).number }
    ensures out_after { out.new ≡ set out.old 0 (first_value answer) }
{
    match answer {
        Answer::Done(done) => {
            out[0] = 0;
            tell_done(done)
        }
        Answer::Opened(opened) => tell_opened(opened, &mut out[..1]),
        Answer::Placed(placed) => tell_placed(placed, &mut out[..1]),
        Answer::Covering(covering) => tell_covering(covering, &mut out[..1]),
        Answer::Loaded(loaded) => tell_loaded(loaded, &mut out[..1]),
        Answer::Counted(counted) => tell_counted(counted, out),
    }
}
