// Runs a script of calls: reads a text from standard input, one call a line, and writes one answer a call. A read or a write that fails
// ends the run with its error.
#![tactic(auto)]

mod memory;
mod output;
mod session;
mod show;

use session::Session;
use std::io;

// Each turn reads what is needed, up to a line's end, and runs the line that ended. A proved loop has to end, and nothing says that
// the input does. So the loop counts its turns down, from a number that no run uses up.
fn main(rt: HostRuntime) -> io::Result<()> {
    let mut reader = rt.stdin();
    let mut writer = rt.stdout();
    let mut input = [0u8; 16384];
    let mut line = memory::line();
    let mut out = [0u8; 16384];
    let mut words = memory::words();
    let mut frames = memory::frames();
    let mut files = memory::files();
    let mut starts = memory::starts();
    let mut session = Session::new();
    let mut turns = u64::MAX;
    // No `for`: the session says when the run ends, and the turns are counted only because nothing says that input does.
    while 0 < turns && session.output.on {
        session = session.filled(&mut reader, &mut input, &mut writer, &out)?;
        session = session.gathered(&input, &mut line);
        session = session.answered(
            &line,
            &mut writer,
            &mut out,
            &mut words,
            &mut frames,
            &mut files,
            &mut starts,
        )?;
        turns -= 1;
    }
    Ok(())
}
