// Tests of bytes, and of names.
ghost use Rattle.std.specs.Prelude.{◌≡◌, ◌||◌};
ghost use Rattle.std.specs.Int.{is_in_range};
ghost use Rattle.fip_language.specs.Character as C;
ghost use Rattle.code_file.specs.Spelling as S;
ghost use Rattle.code_file.specs.Reading as R;

use fip_language::characters::{is_keyword, is_lower, is_name_byte, is_upper};

/// Whether this byte lies within a range.
pub fn is_between(byte: u8, least: u8, greatest: u8) -> bool
    ensures { result ≡ is_in_range least greatest byte }
{
    least <= byte && byte <= greatest
}

/// Whether a byte may occur in the name of a function after these ones.
pub fn may_follow(front: &[u8], byte: u8) -> bool
    ensures { result ≡ R.may_follow front.now byte }
{
    if front.is_empty() {
        is_lower(byte)
    } else {
        is_name_byte(byte)
    }
}

/// Whether these bytes are the name of a constructor.
pub fn is_upper_name(text: &[u8]) -> bool
    ensures { result ≡ C.is_upper_name text.now }
{
    match text.split_first() {
        Some((first, rest)) => is_upper(*first) && are_name_bytes(rest),
        None => false,
    }
}

/// Whether these bytes are the name of a function, or empty.
pub fn is_function_name(text: &[u8]) -> bool
    ensures { result ≡ S.is_function_name text.now }
{
    match text.split_first() {
        Some((first, rest)) => is_lower(*first) && are_name_bytes(rest) && !is_keyword(text),
        None => true,
    }
}

fn are_name_bytes(text: &[u8]) -> bool
    ensures { result ≡ C.are_name_bytes text.now }
{
    for byte in text {
        if !is_name_byte(*byte) {
            return false;
        }
    }
    true
}
