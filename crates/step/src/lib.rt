// One call of any kind, on a machine that has been tested sound: its core, and its answer.
#![tactic(auto)]

pub mod answer;

ghost use Rattle.std.specs.Prelude.{◌≡◌, true, false, length};
ghost use Rattle.model.specs.Layout.{word_count};
ghost use Rattle.model.specs.SoundTest.{soundb};
ghost use Rattle.model.specs.Run.{call};
ghost use Rattle.model.specs.Meant.{meant, reply, counts};
ghost use Rattle.rows.specs.LentMemory.{state_of, DoesWith};
ghost use Rattle.step.specs.Kind.{kind_of, kind_for};

use access::{load_core, store_core};
use carve::cores::carve_core;
use clone_process::clone_core;
use clone_region::clone_region_core;
use create::kinds::{create_file, create_private, create_shared};
use fault::fault_core;
use model::{Answer, Call};
use pins::{pin_core, unpin_core};
use populate::populate_core;
use populate_eager::eager_core;
use process::close::close_core;
use process::opened::open_core;
use protect::protect_core;
use regions::look::{covers_core, region_core, regions_core};
use remove::cores::{clear_core, remove_core};

// Runs a call: one arm for each, in the order of the enum. Starts are put by the calls that list them, and by no other.
pub fn step(
    words: &mut [u64],
    frames: &mut [u8],
    files: &[u8],
    starts: &mut [u64],
    asked: Call,
) -> Answer
    requires words_len { length words.old ≡ word_count }
    requires starts_len { length starts.old ≡ 64 }
    requires files_value { soundb (state_of words.old frames.old files.now) ≡ true }
    ensures does_with { DoesWith (λ s. call (meant asked) s) words.old frames.old files.now words.new frames.new (reply result starts.new) }
    ensures starts_unchanged { counts result ≡ false → starts.new ≡ starts.old }
    ensures result_value { kind_of result ≡ kind_for asked }
{
    match asked {
        Call::Sound => Answer::Done(Ok(())),
        Call::Open { start, size } => Answer::Opened(open_core(words, start, size)),
        Call::Close { process } => Answer::Done(close_core(words, process)),
        Call::CreatePrivate {
            process,
            place,
            population,
            size,
            flags,
            fork,
            thread,
        } => Answer::Placed(create_private(
            words, frames, process, place, population, size, flags, fork, thread,
        )),
        Call::CreateFile {
            process,
            place,
            size,
            flags,
            fork,
            thread,
            file,
            offset,
            len,
        } => Answer::Placed(create_file(
            words, frames, process, place, size, flags, fork, thread, file, offset, len,
        )),
        Call::CreateShared {
            process,
            place,
            size,
        } => Answer::Placed(create_shared(words, frames, process, place, size)),
        Call::Remove { process, addr } => Answer::Done(remove_core(words, process, addr)),
        Call::Clear { process } => Answer::Done(clear_core(words, process)),
        Call::Carve {
            process,
            start,
            end,
        } => Answer::Counted(carve_core(words, starts, process, start, end)),
        Call::Covers {
            process,
            start,
            end,
        } => Answer::Covering(covers_core(&words[..], process, start, end)),
        Call::Region { process, addr } => Answer::Placed(region_core(&words[..], process, addr)),
        Call::Regions { process } => Answer::Counted(regions_core(&words[..], starts, process)),
        Call::Fault {
            process,
            addr,
            write,
        } => Answer::Done(fault_core(words, frames, files, process, addr, write)),
        Call::Populate {
            process,
            addr,
            len,
            write,
        } => Answer::Done(populate_core(words, frames, files, process, addr, len, write)),
        Call::Eager { process } => Answer::Done(eager_core(words, frames, files, process)),
        Call::CloneRegion {
            process,
            addr,
            target,
        } => Answer::Done(clone_region_core(words, frames, process, addr, target)),
        Call::Clone { process, target } => Answer::Done(clone_core(words, frames, process, target)),
        Call::Protect {
            process,
            addr,
            flags,
        } => Answer::Done(protect_core(words, process, addr, flags)),
        Call::Pin { process, addr } => Answer::Done(pin_core(words, process, addr)),
        Call::Unpin { process, addr } => Answer::Done(unpin_core(words, process, addr)),
        Call::Load { process, addr } => Answer::Loaded(load_core(
            &words[..],
            &frames[..],
            process,
            addr,
        )),
        Call::Store {
            process,
            addr,
            byte,
        } => Answer::Done(store_core(&words[..], frames, process, addr, byte)),
    }
}
