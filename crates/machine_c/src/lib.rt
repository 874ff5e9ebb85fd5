// The machine for C and Rust programs, on memory that the caller lends (include/machine.h): 11,844 words, the frames' bytes, the
// files' bytes. Each call answers 0, or the number of a refusal (RULES E), and sets all of `out`; where `out` has another length it
// answers 1, BadTable, and changes nothing.
#![tactic(auto)]

ghost use Rattle.std.specs.Prelude.{◌≡◌, not, eqb, Err};
ghost use Rattle.address.specs.declared.VirtAddr.{VirtAddr};
ghost use Rattle.model.specs.declared.Call.TheVariants as code;
ghost use Rattle.model.specs.Answers.{of_done, of_opened, of_placed, of_covering, of_loaded};
ghost use Rattle.model.specs.Create.{is_copy, is_eager};
ghost use Rattle.model.specs.Calls as model;
ghost use Rattle.soundness.specs.SoundLent.{sound_lent};
ghost use Rattle.calls.specs.Answered.{answer_on, Leaves};
ghost use Rattle.calls.specs.Ran.{reply_on};
ghost use Rattle.machine_c.specs.Numbers.{sound_number, place_of};
ghost use Rattle.machine_c.specs.Out.{Told, LeavesOut, StartTold};

mod call;
mod changes;
mod fills;

use address::VirtAddr;
use call_rows::told::{
    tell_counted, tell_covering, tell_done, tell_loaded, tell_opened, tell_placed,
};
use model::{ForkPolicy, Place, Population};
use soundness::is_sound;

// Whether the memory is a sound machine: 0, or 1, BadTable.
#[unsafe(no_mangle)]
pub extern "C" fn machine_sound(words: &[u64], frames: &[u8], files: &[u8]) -> u64
    ensures { result ≡ sound_number (sound_lent words.now frames.now files.now) }
{
    if is_sound(words, frames, files) {
        return 0;
    }
    1
}

// An empty machine with these frames and files; a file is three words of `rows`.
#[unsafe(no_mangle)]
pub extern "C" fn machine_start(words: &mut [u64], frames: &[u8], files: &[u8], rows: &[u64]) -> u64
    ensures { StartTold words.old frames.now files.now rows.now words.new result }
{
    tell_done(calls::start(words, frames, files, rows))
}

// Opens the lowest closed process, out[0].
#[unsafe(no_mangle)]
pub extern "C" fn machine_open(
    words: &mut [u64],
    frames: &[u8],
    files: &[u8],
    start: u64,
    size: u64,
    out: &mut [u64],
) -> u64
    ensures told { Told (of_opened (answer_on Err (λ s. model.open_process s start size) words.old frames.now files.now)) 1 result out.old out.new }
    ensures leaves_out { LeavesOut (λ s. model.open_process s start size) 1 out.old words.old frames.now files.now words.new frames.now }
{
    if out.len() != 1 {
        return 1;
    }
    tell_opened(
        calls::open(words, frames, files, VirtAddr(start), size),
        out,
    )
}

// Removes all regions of a process and closes it.
#[unsafe(no_mangle)]
pub extern "C" fn machine_close(words: &mut [u64], frames: &[u8], files: &[u8], process: u64) -> u64
    ensures value { result ≡ (of_done (answer_on Err (λ s. model.close s process) words.old frames.now files.now)).number }
    ensures leaves { Leaves (λ s. model.close s process) words.old frames.now files.now words.new frames.now }
{
    tell_done(calls::close(words, frames, files, process))
}

// The start of the attached region at an address, out[0].
#[unsafe(no_mangle)]
pub extern "C" fn machine_region(
    words: &[u64],
    frames: &[u8],
    files: &[u8],
    process: u64,
    addr: u64,
    out: &mut [u64],
) -> u64
    ensures { Told (of_placed (answer_on Err (λ s. model.region s process addr) words.now frames.now files.now)) 1 result out.old out.new }
{
    if out.len() != 1 {
        return 1;
    }
    tell_placed(
        calls::region(words, frames, files, process, VirtAddr(addr)),
        out,
    )
}

// The starts of a process's attached regions, in list order: their count is out[0], the starts stand behind it, then zeros.
#[unsafe(no_mangle)]
pub extern "C" fn machine_regions(
    words: &[u64],
    frames: &[u8],
    files: &[u8],
    process: u64,
    out: &mut [u64],
) -> u64
    ensures { Told (reply_on (code.Regions process) words.now frames.now files.now) 65 result out.old out.new }
{
    if out.len() != 65 {
        return 1;
    }
    let counted = calls::regions(words, frames, files, &mut out[1..], process);
    tell_counted(counted, out)
}

// Whether a range is covered: out[0] is 1 or 0.
#[unsafe(no_mangle)]
pub extern "C" fn machine_covers(
    words: &[u64],
    frames: &[u8],
    files: &[u8],
    process: u64,
    start: u64,
    end: u64,
    out: &mut [u64],
) -> u64
    ensures { Told (of_covering (answer_on Err (λ s. model.covers s process start end) words.now frames.now files.now)) 1 result out.old out.new }
{
    if out.len() != 1 {
        return 1;
    }
    tell_covering(
        calls::covers(words, frames, files, process, start, end),
        out,
    )
}

// The byte at an address, out[0].
#[unsafe(no_mangle)]
pub extern "C" fn machine_load(
    words: &[u64],
    frames: &[u8],
    files: &[u8],
    process: u64,
    addr: u64,
    out: &mut [u64],
) -> u64
    ensures { Told (of_loaded (answer_on Err (λ s. model.load s process addr) words.now frames.now files.now)) 1 result out.old out.new }
{
    if out.len() != 1 {
        return 1;
    }
    tell_loaded(
        calls::load(words, frames, files, process, VirtAddr(addr)),
        out,
    )
}

// Puts a byte at an address.
#[unsafe(no_mangle)]
pub extern "C" fn machine_store(
    words: &[u64],
    frames: &mut [u8],
    files: &[u8],
    process: u64,
    addr: u64,
    byte: u8,
) -> u64
    ensures value { result ≡ (of_done (answer_on Err (λ s. model.store s process addr byte) words.now frames.old files.now)).number }
    ensures leaves { Leaves (λ s. model.store s process addr byte) words.now frames.old files.now words.now frames.new }
{
    tell_done(calls::store(words, frames, files, process, VirtAddr(addr), byte))
}

// Where creation puts a region: at `start` where it is given, else at the lowest free start.
fn place_at(given: u64, start: u64) -> Place
    ensures { result ≡ place_of given start }
{
    if given == 0 {
        return Place::Lowest;
    }
    Place::At(VirtAddr(start))
}

// The fork policy that a number stands for: CopyOnWrite where it is 0.
fn fork_of(copy: u64) -> ForkPolicy
    ensures { is_copy result ≡ not (eqb copy 0) }
{
    if copy == 0 {
        return ForkPolicy::CopyOnWrite;
    }
    ForkPolicy::CopyEager
}

// When a region gets its frames, by a number: Lazy where it is 0.
fn population_of(eager: u64) -> Population
    ensures { is_eager result ≡ not (eqb eager 0) }
{
    if eager == 0 {
        return Population::Lazy;
    }
    Population::Eager
}

// Creates a private region, lazy or eager: its start is out[0].
#[unsafe(no_mangle)]
pub extern "C" fn machine_create_private(
    words: &mut [u64],
    frames: &mut [u8],
    files: &[u8],
    process: u64,
    given: u64,
    start: u64,
    size: u64,
    flags: u64,
    copy: u64,
    thread: u64,
    eager: u64,
    out: &mut [u64],
) -> u64
    ensures told { Told (of_placed (answer_on Err (λ s. model.create_private s process (place_of given start) (not (eqb eager 0)) size flags (not (eqb copy 0)) (not (eqb thread 0))) words.old frames.old files.now)) 1 result out.old out.new }
    ensures leaves_out { LeavesOut (λ s. model.create_private s process (place_of given start) (not (eqb eager 0)) size flags (not (eqb copy 0)) (not (eqb thread 0))) 1 out.old words.old frames.old files.now words.new frames.new }
{
    if out.len() != 1 {
        return 1;
    }
    let place = place_at(given, start);
    let population = population_of(eager);
    let fork = fork_of(copy);
    tell_placed(
        calls::create_private(
            words,
            frames,
            files,
            process,
            place,
            population,
            size,
            flags,
            fork,
            thread != 0,
        ),
        out,
    )
}

// Creates a region of a file's contents: its start is out[0].
#[unsafe(no_mangle)]
pub extern "C" fn machine_create_file(
    words: &mut [u64],
    frames: &mut [u8],
    files: &[u8],
    process: u64,
    given: u64,
    start: u64,
    size: u64,
    flags: u64,
    copy: u64,
    thread: u64,
    file: u64,
    offset: u64,
    length: u64,
    out: &mut [u64],
) -> u64
    ensures told { Told (of_placed (answer_on Err (λ s. model.create_file s process (place_of given start) size flags (not (eqb copy 0)) (not (eqb thread 0)) file offset length) words.old frames.old files.now)) 1 result out.old out.new }
    ensures leaves_out { LeavesOut (λ s. model.create_file s process (place_of given start) size flags (not (eqb copy 0)) (not (eqb thread 0)) file offset length) 1 out.old words.old frames.old files.now words.new frames.new }
{
    if out.len() != 1 {
        return 1;
    }
    let place = place_at(given, start);
    let fork = fork_of(copy);
    tell_placed(
        calls::create_file(
            words,
            frames,
            files,
            process,
            place,
            size,
            flags,
            fork,
            thread != 0,
            file,
            offset,
            length,
        ),
        out,
    )
}

// Creates a shared region: its start is out[0].
#[unsafe(no_mangle)]
pub extern "C" fn machine_create_shared(
    words: &mut [u64],
    frames: &mut [u8],
    files: &[u8],
    process: u64,
    given: u64,
    start: u64,
    size: u64,
    out: &mut [u64],
) -> u64
    ensures told { Told (of_placed (answer_on Err (λ s. model.create_shared s process (place_of given start) size) words.old frames.old files.now)) 1 result out.old out.new }
    ensures leaves_out { LeavesOut (λ s. model.create_shared s process (place_of given start) size) 1 out.old words.old frames.old files.now words.new frames.new }
{
    if out.len() != 1 {
        return 1;
    }
    let place = place_at(given, start);
    tell_placed(
        calls::create_shared(words, frames, files, process, place, size),
        out,
    )
}
