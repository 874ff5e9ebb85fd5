// Numbers out of words: decimal, or hexadecimal after `0x`, up to 2^64 - 1.
ghost use Rattle.std.specs.Prelude.{◌≡◌, ◌+◌, ◌*◌, ◌<◌, ◌≤◌, cond, Err};
ghost use Rattle.text.specs.declared.number.NumberError.TheVariants.{TooLarge, NoNumber};
ghost use Rattle.text.specs.Numeral.{digit_of, digits_in, digitsb, fitting, number_in};

// Why a word is no number.
#[derive(Clone, Copy, Debug, PartialEq, Eq)]
pub enum NumberError {
    TooLarge,
    NoNumber,
}

// The number that a whole word spells.
pub fn read_number(word: &[u8]) -> Result<u64, NumberError>
    ensures { result ≡ number_in word.now }
{
    match word.strip_prefix(b"0x") {
        Some(digits) => read_digits(digits, 16),
        None => read_digits(word, 10),
    }
}

// The number that digits spell in a base. A byte that is no digit of the base spoils it, however large the number already is.
fn read_digits(digits: &[u8], base: u64) -> Result<u64, NumberError>
    requires base_nonzero { 0 < base }
    requires base_bound { base ≤ 16 }
    ensures { result ≡ digits_in base digits.now }
{
    if digits.is_empty() {
        return Err(NumberError::NoNumber);
    }
    let mut value = 0;
    for &byte in digits {
        let next = digit(byte);
        if base <= next {
            return Err(NumberError::NoNumber);
        }
        let Ok(more) = with_digit(value, base, next) else {
            return too_large(digits, base);
        };
        value = more;
    }
    Ok(value)
}

// What is wrong with digits that do not fit: only here are they looked at a second time.
fn too_large(digits: &[u8], base: u64) -> Result<u64, NumberError>
    ensures { result ≡ cond (digitsb base digits.now) (Err TooLarge) (Err NoNumber) }
{
    if are_digits(digits, base) {
        Err(NumberError::TooLarge)
    } else {
        Err(NumberError::NoNumber)
    }
}

// Whether every byte is a digit of the base.
#[tactic(auto, unfolding(crate::specs::Numeral::digitsb))]
pub fn are_digits(bytes: &[u8], base: u64) -> bool
    ensures { result ≡ digitsb base bytes.now }
{
    bytes.iter().all(|&byte| digit(byte) < base)
}

// With one digit more.
#[tactic(auto, unfolding(crate::specs::Numeral::fitting))]
fn with_digit(value: u64, base: u64, digit: u64) -> Result<u64, NumberError>
    ensures { result ≡ fitting (value * base + digit) }
{
    value
        .checked_mul(base)
        .and_then(|scaled| scaled.checked_add(digit))
        .ok_or(NumberError::TooLarge)
}

// The value of a digit, a letter in either case; 16 if the byte is none.
// An `Option` is no plainer: 16 is below no base, so one comparison tells the digits of a base.
#[tactic(auto, unfolding(crate::specs::Numeral::digit_of))]
pub fn digit(byte: u8) -> u64
    ensures { result ≡ digit_of byte }
{
    match byte {
        b'0'..=b'9' => (byte - b'0') as u64,
        b'A'..=b'F' => (byte - b'A' + 10) as u64,
        b'a'..=b'f' => (byte - b'a' + 10) as u64,
        _ => 16,
    }
}
