// Bytes and numbers as text, put into a lent buffer one after the other.
ghost use Rattle.std.specs.Prelude.{◌+◌, ◌≤◌, length};
ghost use Rattle.text.specs.Write.{Put, Spelled};

// Puts bytes at a place, and answers the place after them.
// A writer over the buffer is no plainer, because the contracts Put and Spelled name the places.
pub fn put(out: &mut [u8], at: usize, text: &[u8]) -> usize
    requires { at + length text.now ≤ length out.old }
    ensures { Put out.old at text.now out.new result }
{
    let next = at + text.len();
    out[at..next].copy_from_slice(text);
    next
}

// Puts a number in decimal.
#[tactic(auto, using(crate::specs::WriteLaws::at_most))]
pub fn put_decimal(out: &mut [u8], at: usize, n: u64) -> usize
    requires { at + 20 ≤ length out.old }
    ensures { Spelled 20 out.old at n out.new result }
{
    let mut digits = [0u8; 20];
    let k = io::decimal(n, &mut digits);
    put(out, at, &digits[..k])
}

// Puts a number in hexadecimal: `0x` and the digits in lower case, with no zero in front.
#[tactic(auto, using(crate::specs::WriteLaws::at_most))]
pub fn put_hex(out: &mut [u8], at: usize, n: u64) -> usize
    requires { at + 18 ≤ length out.old }
    ensures { Spelled 18 out.old at n out.new result }
{
    let mut digits = [0u8; 16];
    let k = io::hex(n, 1, &mut digits);
    let next = put(out, at, b"0x");
    put(out, next, &digits[..k])
}

// Puts a blank and a number in hexadecimal.
pub fn put_hex_word(out: &mut [u8], at: usize, n: u64) -> usize
    requires { at + 19 ≤ length out.old }
    ensures { result ≤ at + 19 }
{
    let next = put(out, at, b" ");
    put_hex(out, next, n)
}
