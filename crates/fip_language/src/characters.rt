// What a byte is in a text, and the words of the language.
ghost use Rattle.std.specs.Prelude.{◌≡◌, ◌||◌};
ghost use Rattle.fip_language.specs.Character as C;

/// Whether this is a small letter.
pub fn is_lower(byte: u8) -> bool
    ensures lower { result ≡ C.is_lower byte }
{
    b'a' <= byte && byte <= b'z'
}

/// Whether this is a capital letter.
pub fn is_upper(byte: u8) -> bool
    ensures upper { result ≡ C.is_upper byte }
{
    b'A' <= byte && byte <= b'Z'
}

/// Whether this is a digit.
pub fn is_digit(byte: u8) -> bool
    ensures digit { result ≡ C.is_digit byte }
{
    b'0' <= byte && byte <= b'9'
}

/// Whether a name may go on with this byte: a letter, a digit or _.
pub fn is_name_byte(byte: u8) -> bool
    ensures named { result ≡ (C.is_digit byte || C.is_letter byte) }
{
    is_lower(byte) || is_upper(byte) || is_digit(byte) || byte == b'_'
}

/// Whether these bytes are a word of the language, which names nothing.
pub fn is_keyword(text: &[u8]) -> bool
    ensures keyword { result ≡ C.is_keyword text.now }
{
    text == b"data".as_slice()
        || text == b"fip".as_slice()
        || text == b"fbip".as_slice()
        || text == b"fun".as_slice()
        || text == b"match".as_slice()
        || text == b"let".as_slice()
        || text == b"if".as_slice()
        || text == b"else".as_slice()
        || text == b"int".as_slice()
}
