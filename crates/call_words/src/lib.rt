// The numbering of the machine's calls: a call out of its number and its arguments.
#![tactic(auto)]

ghost use Rattle.std.specs.Prelude.{◌≡◌, ◌&&◌, ◌≤◌, ◌<◌};
ghost use Rattle.call_words.specs.CallOf.{call_of, private_of, file_of, place_of, population_of, fork_of, flagb, count_of};

use address::VirtAddr;
use model::{Call, ForkPolicy, Place, Population};

// The call of a number and its arguments, which are as many as the call takes and 0 behind them.
pub fn call_of(number: u64, args: [u64; 10]) -> Option<Call>
    ensures { result ≡ call_of number args }
{
    if number < 13 {
        return region_call(number, args);
    }
    page_call(number, args)
}

// The calls on processes and whole regions.
fn region_call(number: u64, args: [u64; 10]) -> Option<Call>
    requires { number < 13 }
    ensures { result ≡ call_of number args }
{
    let process = args[0];
    let start = args[1];
    let addr = VirtAddr(start);
    let end = args[2];
    match number {
        1 => Some(Call::Sound),
        2 => Some(Call::Open {
            start: VirtAddr(process),
            size: start,
        }),
        3 => Some(Call::Close { process }),
        4 => private_call(args),
        5 => file_call(args),
        6 => shared_call(args),
        7 => Some(Call::Remove { process, addr }),
        8 => Some(Call::Clear { process }),
        9 => Some(Call::Carve {
            process,
            start,
            end,
        }),
        10 => Some(Call::Covers {
            process,
            start,
            end,
        }),
        11 => Some(Call::Region { process, addr }),
        12 => Some(Call::Regions { process }),
        _ => None,
    }
}

// The calls on pages and bytes, and those that change regions.
fn page_call(number: u64, args: [u64; 10]) -> Option<Call>
    requires { 13 ≤ number }
    ensures { result ≡ call_of number args }
{
    let process = args[0];
    let second = args[1];
    let addr = VirtAddr(second);
    let third = args[2];
    match number {
        13 => fault_call(args),
        14 => populate_call(args),
        15 => Some(Call::Eager { process }),
        16 => Some(Call::CloneRegion {
            process,
            addr,
            target: third,
        }),
        17 => Some(Call::Clone {
            process,
            target: second,
        }),
        18 => Some(Call::Protect {
            process,
            addr,
            flags: third,
        }),
        19 => Some(Call::Pin { process, addr }),
        20 => Some(Call::Unpin { process, addr }),
        21 => Some(Call::Load { process, addr }),
        22 => store_call(args),
        _ => None,
    }
}

fn private_call(args: [u64; 10]) -> Option<Call>
    ensures { result ≡ private_of args }
{
    if !are_flags(args[1], args[3], args[6], args[7]) {
        return None;
    }
    Some(Call::CreatePrivate {
        process: args[0],
        place: place_of(args[1], args[2]),
        population: population_of(args[3]),
        size: args[4],
        flags: args[5],
        fork: fork_of(args[6]),
        thread: args[7] == 1,
    })
}

fn file_call(args: [u64; 10]) -> Option<Call>
    ensures { result ≡ file_of args }
{
    if !are_flags(args[1], args[5], args[6], 0) {
        return None;
    }
    Some(Call::CreateFile {
        process: args[0],
        place: place_of(args[1], args[2]),
        size: args[3],
        flags: args[4],
        fork: fork_of(args[5]),
        thread: args[6] == 1,
        file: args[7],
        offset: args[8],
        len: args[9],
    })
}

fn shared_call(args: [u64; 10]) -> Option<Call>
    ensures { result ≡ call_of 6 args }
{
    if 2 <= args[1] {
        return None;
    }
    Some(Call::CreateShared {
        process: args[0],
        place: place_of(args[1], args[2]),
        size: args[3],
    })
}

fn fault_call(args: [u64; 10]) -> Option<Call>
    ensures { result ≡ call_of 13 args }
{
    if 2 <= args[2] {
        return None;
    }
    Some(Call::Fault {
        process: args[0],
        addr: VirtAddr(args[1]),
        write: args[2] == 1,
    })
}

fn populate_call(args: [u64; 10]) -> Option<Call>
    ensures { result ≡ call_of 14 args }
{
    if 2 <= args[3] {
        return None;
    }
    Some(Call::Populate {
        process: args[0],
        addr: VirtAddr(args[1]),
        len: args[2],
        write: args[3] == 1,
    })
}

fn store_call(args: [u64; 10]) -> Option<Call>
    ensures { result ≡ call_of 22 args }
{
    let byte = args[2];
    if 256 <= byte {
        return None;
    }
    Some(Call::Store {
        process: args[0],
        addr: VirtAddr(args[1]),
        byte: byte as u8,
    })
}

// Whether four words are flags.
fn are_flags(a: u64, b: u64, c: u64, d: u64) -> bool
    ensures { result ≡ (flagb a && (flagb b && (flagb c && flagb d))) }
{
    a < 2 && (b < 2 && (c < 2 && d < 2))
}

fn place_of(flag: u64, start: u64) -> Place
    ensures { result ≡ place_of flag start }
{
    if flag == 1 {
        return Place::At(VirtAddr(start));
    }
    Place::Lowest
}

fn population_of(flag: u64) -> Population
    ensures { result ≡ population_of flag }
{
    if flag == 1 {
        return Population::Eager;
    }
    Population::Lazy
}

fn fork_of(flag: u64) -> ForkPolicy
    ensures { result ≡ fork_of flag }
{
    if flag == 1 {
        return ForkPolicy::CopyEager;
    }
    ForkPolicy::CopyOnWrite
}

// How many arguments the call of a number takes.
pub fn argument_count(number: u64) -> usize
    ensures { result ≡ count_of number }
{
    if 23 <= number {
        return 0;
    }
    let counts = [
        0, 0, 2, 1, 8, 10, 4, 2, 1, 3, 3, 2, 1, 3, 4, 1, 3, 2, 3, 2, 2, 2, 3,
    ];
    counts[number as usize]
}
