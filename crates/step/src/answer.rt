// Refusals in the shape of a call's answer.
ghost use Rattle.std.specs.Prelude.{◌≡◌};
ghost use Rattle.model.specs.Meant.{refused, counts};

use answers::Refusal;
use model::{Answer, Call, Counted};

// A refusal of a call.
pub fn refused(call: Call, why: Refusal) -> Answer
    ensures { result ≡ refused call why }
{
    match call {
        Call::Sound => Answer::Done(Err(why)),
        Call::Open { .. } => Answer::Opened(Err(why)),
        Call::Close { .. } => Answer::Done(Err(why)),
        Call::CreatePrivate { .. } => Answer::Placed(Err(why)),
        Call::CreateFile { .. } => Answer::Placed(Err(why)),
        Call::CreateShared { .. } => Answer::Placed(Err(why)),
        Call::Remove { .. } => Answer::Done(Err(why)),
        Call::Clear { .. } => Answer::Done(Err(why)),
        Call::Carve { .. } => Answer::Counted(Counted {
            done: Err(why),
            count: 0,
        }),
        Call::Covers { .. } => Answer::Covering(Err(why)),
        Call::Region { .. } => Answer::Placed(Err(why)),
        Call::Regions { .. } => Answer::Counted(Counted {
            done: Err(why),
            count: 0,
        }),
        Call::Fault { .. } => Answer::Done(Err(why)),
        Call::Populate { .. } => Answer::Done(Err(why)),
        Call::Eager { .. } => Answer::Done(Err(why)),
        Call::CloneRegion { .. } => Answer::Done(Err(why)),
        Call::Clone { .. } => Answer::Done(Err(why)),
        Call::Protect { .. } => Answer::Done(Err(why)),
        Call::Pin { .. } => Answer::Done(Err(why)),
        Call::Unpin { .. } => Answer::Done(Err(why)),
        Call::Load { .. } => Answer::Loaded(Err(why)),
        Call::Store { .. } => Answer::Done(Err(why)),
    }
}

// Whether an answer is one that lists starts.
pub fn is_counted(answer: Answer) -> bool
    ensures { result ≡ counts answer }
{
    match answer {
        Answer::Done(_) => false,
        Answer::Opened(_) => false,
        Answer::Placed(_) => false,
        Answer::Covering(_) => false,
        Answer::Loaded(_) => false,
        Answer::Counted(_) => true,
    }
}
