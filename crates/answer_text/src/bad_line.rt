// What is wrong with a line, as text.
ghost use Rattle.std.specs.Prelude.{◌+◌, ◌≤◌, length};

use call_text::{Fault, Why};
use text::{Row, part_of, put_row};

// Puts what is wrong with a line. The words are the names of operands.
pub fn put_fault(out: &mut [u8], at: usize, line: &[u8], number: u64, fault: Fault) -> usize
    requires { at + 160 ≤ length out.old }
    ensures { result ≤ at + 160 }
{
    let name = place_of(b"SZLAPDENFfolBKQ@", fault.what);
    put_row(
        out,
        at,
        160,
        Row::new(form_of(fault.why, fault.what), &[number, name]),
        b"?_line_#:_unknown_call_`~`\n ?_line_#:_@_is_missing\n ?_line_#:_@_is_not_a_number:_`~`\n \
        ?_line_#:_@_is_larger_than_2^64_-_1:_`~`\n ?_line_#:_copy_or_cow_is_missing\n ?_line_#:_thread_or_-_is_missing\n \
        ?_line_#:_r_or_w_is_missing\n ?_line_#:_readable_or_unreadable_is_missing\n ?_line_#:_START_or_any_is_missing\n \
        ?_line_#:_neither_copy_nor_cow:_`~`\n ?_line_#:_neither_thread_nor_-:_`~`\n ?_line_#:_neither_r_nor_w:_`~`\n \
        ?_line_#:_neither_readable_nor_unreadable:_`~`\n ?_line_#:_no_kind_of_region:_`~`\n \
        ?_line_#:_BYTE_is_larger_than_255:_`~`\n ?_line_#:_HEXBYTES_are_no_bytes:_`~`\n ?_line_#:_too_many_words:_`~`\n \
        ?_line_#:_line_longer_than_65536_bytes\n ?_line_#:_no_manager_yet\n ?_line_#:_no_machine_yet\n \
        ?_line_#:_files_are_lent_before_the_machine_is_started\n ?_line_#:_more_than_8_files\n \
        ?_line_#:_the_files_have_too_many_bytes\n",
        b"START SIZE LEN AT P ADDR END FRAMES FLAGS FILE OFFSET LENGTH BYTE KIND Q START",
        part_of(line, fault.word),
    )
}

// The form of what is wrong with an operand.
fn form_of(why: Why, what: u8) -> u64 {
    match why {
        Why::UnknownCall => 0,
        Why::Missing => missing_form(what),
        Why::NoNumber => 2,
        Why::TooLarge => 3,
        Why::Neither => 9 + place_of(b"CTWR", what),
        Why::NoByte => 14,
        Why::NoBytes => 15,
        Why::TooManyWords => 16,
        Why::LongLine => 17,
        Why::NoManager => 18,
        Why::NoMachine => 19,
        Why::FilesFirst => 20,
        Why::TooManyFiles => 21,
        Why::TooManyBytes => 22,
    }
}

// The operands that are one of a few words have forms of their own.
fn missing_form(what: u8) -> u64 {
    match place_of(b"CTWR@", what) {
        5 => 1,
        place => 4 + place,
    }
}

// The place of an operand's letter in a list of letters; their number if it is none of them. An `Option` is no plainer: what stands
// behind the list is the form of a kind of region, or an empty name.
fn place_of(letters: &[u8], letter: u8) -> u64
    requires { length letters.now ≤ 16 }
    ensures { result ≤ 16 }
{
    letters
        .iter()
        .position(|&listed| listed == letter)
        .unwrap_or(letters.len()) as u64
}
