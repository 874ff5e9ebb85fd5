// The machine's answers as the script writes them.
ghost use Rattle.std.specs.Prelude.{◌≡◌};
ghost use Rattle.answer_text.specs.Written.{written_as};

use crate::answer::Answer;
use model::Counted;

#[tactic(auto, unfolding(crate::specs::Written::written_as))]
pub fn written_as(answer: model::Answer) -> Answer
    ensures { result ≡ written_as answer }
{
    match answer {
        model::Answer::Done(Ok(())) => Answer::Done,
        model::Answer::Opened(Ok(number)) => Answer::Count(number),
        model::Answer::Placed(Ok(start)) => Answer::Hex(start.0),
        model::Answer::Covering(Ok(true)) => Answer::Yes,
        model::Answer::Covering(Ok(false)) => Answer::No,
        model::Answer::Loaded(Ok(byte)) => Answer::Count(byte as u64),
        model::Answer::Counted(
            Counted {
                done: Ok(()),
                count,
            },
        ) => Answer::List(count),
        model::Answer::Done(Err(why))
        | model::Answer::Opened(Err(why))
        | model::Answer::Placed(Err(why))
        | model::Answer::Covering(Err(why))
        | model::Answer::Loaded(Err(why))
        | model::Answer::Counted(Counted { done: Err(why), .. }) => Answer::Refused(why),
    }
}
