// Loads with one soundness test for all of them, for C and Rust programs on a machine that the caller lends: the oracle's example `checked`
// links it, to time a load's core without the test.
ghost use Rattle.std.specs.Prelude.{◌≡◌};
ghost use Rattle.bench_c.specs.Loads.{byte_or0, loads_on};

use access::load_core;
use address::VirtAddr;
use answers::Refusal;
use soundness::is_sound;

// The sum of the bytes that a process loads from `addr` on, of as many addresses as `times`; a refused load counts 0.
#[unsafe(no_mangle)]
pub extern "C" fn cores_loads(
    words: &[u64],
    frames: &[u8],
    files: &[u8],
    process: u64,
    addr: u64,
    times: u64,
) -> u64
    ensures { result ≡ loads_on words.now frames.now files.now process addr times }
{
    if !is_sound(words, frames, files) {
        return 0;
    }
    let mut sum = 0;
    for i in 0..times {
        let at = std::num::wrapping_add_u64(addr, i);
        let byte = byte_or_0(load_core(words, frames, process, VirtAddr(at)));
        sum = std::num::wrapping_add_u64(sum, byte);
    }
    sum
}

fn byte_or_0(answer: Result<u8, Refusal>) -> u64
    ensures { result ≡ byte_or0 answer }
{
    match answer {
        Ok(byte) => byte as u64,
        Err(_) => 0,
    }
}
