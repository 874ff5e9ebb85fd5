// Which call words name: its number, then exactly its arguments.
ghost use Rattle.std.specs.Prelude.{◌≡◌, ◌≤◌, length};
ghost use Rattle.laws.specs.Lists.{pad};
ghost use Rattle.call_rows.specs.Asked.{call_in, starts_with};

use call_words::{argument_count, call_of};
use model::Call;

// Whether words begin with the number of start.
pub fn is_start(call: &[u64]) -> bool
    ensures { result ≡ starts_with call.now }
{
    if call.len() == 0 {
        return false;
    }
    call[0] == 0
}

// The call that words name.
pub fn call_in(call: &[u64]) -> Option<Call>
    ensures { result ≡ call_in call.now }
{
    if call.len() == 0 {
        return None;
    }
    let number = call[0];
    if call.len() - 1 != argument_count(number) {
        return None;
    }
    call_of(number, arguments(&call[1..]))
}

// Ten arguments: those that are given, then zeros.
fn arguments(given: &[u64]) -> [u64; 10]
    requires { length given.now ≤ 10 }
    ensures { result ≡ pad 10 0 given.now }
{
    let mut args = [0; 10];
    args[..given.len()].copy_from_slice(given);
    args
}
