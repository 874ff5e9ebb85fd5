// The script's manager: what a call answers, and the manager after it.
ghost use Rattle.std.specs.Prelude.{◌≡◌, Some, None};
ghost use Rattle.call_text.specs.declared.asked.Why.TheVariants.{NoManager};
ghost use Rattle.call_text.specs.Faults.{whole_fault};
ghost use Rattle.script_step.specs.declared.said.Said.TheVariants as said;
ghost use Rattle.script_step.specs.LoneStep.{says, answers, new_step, reserve_step, mark_step, release_step, split_step, list_step, step_of};

use crate::said::{Said, Stepped};
use address::VirtAddr;
use answer_text::Answer;
use call_text::{LoneCall, Why, whole_fault};
use segments::{Segment, VirtualMemoryManager};

// The manager, if there is one yet.
#[derive(Clone, Copy)]
pub struct Lone {
    pub manager: Option<VirtualMemoryManager>,
}

impl Lone {
    // No manager yet.
    pub fn new() -> Lone
        ensures { result.manager ≡ None }
    {
        Lone { manager: None }
    }

    // Runs a call.
    #[tactic(auto, unfolding(crate::specs::LoneStep::step_of))]
    pub fn step(self, call: LoneCall) -> Stepped<Lone>
        ensures { result ≡ step_of self call }
    {
        match call {
            LoneCall::Manager(start, size) => self.renewed(start, size),
            LoneCall::Reserve(len) => self.reserve(len),
            LoneCall::Mark(start, len) => self.mark(start, len),
            LoneCall::Release(start, len) => self.release(start, len),
            LoneCall::Split(start, len, at) => self.split(start, len, at),
            LoneCall::Segments => self.list(),
        }
    }

    fn says(self, said: Said) -> Stepped<Lone>
        ensures { result ≡ says self said }
    {
        Stepped { said, after: self }
    }

    fn no_manager(self) -> Stepped<Lone>
        ensures { result ≡ says self (said.Fault (whole_fault NoManager)) }
    {
        self.says(Said::Fault(whole_fault(Why::NoManager)))
    }

    // A new manager in the place of the one before, which stays if the new one is refused.
    #[tactic(auto, unfolding(crate::specs::LoneStep::new_step))]
    fn renewed(self, start: u64, size: u64) -> Stepped<Lone>
        ensures { result ≡ new_step self start size }
    {
        let done = VirtualMemoryManager::new(VirtAddr(start), size);
        match done.answer {
            Ok(()) => made(done.manager, Answer::Done),
            Err(why) => self.says(Said::Answer(Answer::Refused(why))),
        }
    }

    #[tactic(auto, unfolding(crate::specs::LoneStep::reserve_step))]
    fn reserve(self, len: u64) -> Stepped<Lone>
        ensures { result ≡ reserve_step self len }
    {
        let Some(before) = self.manager else {
            return self.no_manager();
        };
        let done = before.reserve_bytes(len);
        match done.answer {
            Ok((at, restarts)) => made(done.manager, Answer::Start(at.start.0, restarts)),
            Err(why) => made(done.manager, Answer::Refused(why)),
        }
    }

    #[tactic(auto, unfolding(crate::specs::LoneStep::mark_step))]
    fn mark(self, start: u64, len: u64) -> Stepped<Lone>
        ensures { result ≡ mark_step self start len }
    {
        let Some(before) = self.manager else {
            return self.no_manager();
        };
        let done = before.mark_as_reserved(Segment::new(VirtAddr(start), len));
        match done.answer {
            Ok(()) => made(done.manager, Answer::Done),
            Err(why) => made(done.manager, Answer::Refused(why)),
        }
    }

    #[tactic(auto, unfolding(crate::specs::LoneStep::release_step))]
    fn release(self, start: u64, len: u64) -> Stepped<Lone>
        ensures { result ≡ release_step self start len }
    {
        let Some(before) = self.manager else {
            return self.no_manager();
        };
        let done = before.release(Segment::new(VirtAddr(start), len));
        match done.answer {
            Ok(true) => made(done.manager, Answer::Yes),
            Ok(false) => made(done.manager, Answer::No),
            Err(why) => made(done.manager, Answer::Refused(why)),
        }
    }

    #[tactic(auto, unfolding(crate::specs::LoneStep::split_step))]
    fn split(self, start: u64, len: u64, at: u64) -> Stepped<Lone>
        ensures { result ≡ split_step self start len at }
    {
        let Some(before) = self.manager else {
            return self.no_manager();
        };
        let done = before.split(Segment::new(VirtAddr(start), len), VirtAddr(at));
        match done.answer {
            Ok((low, high)) => made(
                done.manager,
                Answer::Parts(low.start.0, low.len, high.start.0, high.len),
            ),
            Err(why) => made(done.manager, Answer::Refused(why)),
        }
    }

    // The list itself is written from the manager.
    #[tactic(auto, unfolding(crate::specs::LoneStep::list_step))]
    fn list(self) -> Stepped<Lone>
        ensures { result ≡ list_step self }
    {
        let Some(manager) = self.manager else {
            return self.no_manager();
        };
        self.says(Said::List(manager))
    }
}

// An answer with the manager that is there now.
fn made(manager: VirtualMemoryManager, answer: Answer) -> Stepped<Lone>
    ensures { result ≡ answers manager answer }
{
    let lone = Lone {
        manager: Some(manager),
    };
    lone.says(Said::Answer(answer))
}
