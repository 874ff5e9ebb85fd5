// Bytes as hexadecimal digits, two a byte, in either case.
ghost use Rattle.std.specs.Prelude.{◌≡◌};
ghost use Rattle.call_text.specs.Operand.{bytesb};

use text::are_digits;

#[tactic(auto, unfolding(crate::specs::Operand::bytesb))]
pub fn spells_bytes(word: &[u8]) -> bool
    ensures { result ≡ bytesb word.now }
{
    word.len() % 2 == 0 && are_digits(word, 16)
}
