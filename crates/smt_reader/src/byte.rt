//! The kinds of bytes (SMT-LIB 2.6, section 3.1).
ghost use Rattle.std.specs.Prelude.{◌≡◌, ◌&&◌, ◌||◌, ◌==◌, not};
ghost use Rattle.std.specs.List.{prefix_len};
ghost use Rattle.smt_meaning.specs.Reading.{is_blank as is_blank_byte, is_digit as is_digit_byte, is_symbol_byte as is_symbol, is_word_byte as is_word, is_hex_digit as is_hex, is_binary_digit as is_binary, is_printable as is_printable_byte};

/// Whether it is white space.
pub fn is_blank(byte: u8) -> bool
    ensures { result ≡ is_blank_byte byte }
{
    byte == b'\t' || byte == b'\n' || byte == b'\r' || byte == b' '
}

/// Whether it is a digit.
pub fn is_digit(byte: u8) -> bool
    ensures { result ≡ is_digit_byte byte }
{
    b'0' <= byte && byte <= b'9'
}

// Each byte of a simple symbol stands at its own place, and a comma at every other place.
static SYMBOL_BYTES: [u8; 256] = *b"\
    ,,,,,,,,,,,,,,,,,,,,,,,,,,,,,,,,\
    ,!,,$%&,,,*+,-./0123456789,,<=>?\
    @ABCDEFGHIJKLMNOPQRSTUVWXYZ,,,^_\
    ,abcdefghijklmnopqrstuvwxyz,,,~,\
    ,,,,,,,,,,,,,,,,,,,,,,,,,,,,,,,,\
    ,,,,,,,,,,,,,,,,,,,,,,,,,,,,,,,,\
    ,,,,,,,,,,,,,,,,,,,,,,,,,,,,,,,,\
    ,,,,,,,,,,,,,,,,,,,,,,,,,,,,,,,,";

/// Whether it may stand in a simple symbol.
pub fn is_symbol_byte(byte: u8) -> bool
    ensures { result ≡ is_symbol byte }
{
    SYMBOL_BYTES[byte as usize] != b','
}

/// Whether it may stand in a word: a symbol, a number, a reserved word or a keyword.
#[tactic(auto, unfolding(smt_meaning::specs::Reading::is_word_byte))]
pub fn is_word_byte(byte: u8) -> bool
    ensures { result ≡ is_word byte }
{
    is_symbol_byte(byte) || byte == b':' || byte == b'#'
}

/// Whether it is a hexadecimal digit.
pub fn is_hex_digit(byte: u8) -> bool
    ensures { result ≡ is_hex byte }
{
    is_digit(byte) || (b'A' <= byte && byte <= b'F') || (b'a' <= byte && byte <= b'f')
}

/// Whether it is 0 or 1.
pub fn is_binary_digit(byte: u8) -> bool
    ensures { result ≡ is_binary byte }
{
    byte == b'0' || byte == b'1'
}

/// Whether it may stand in a text.
#[tactic(auto, unfolding(smt_meaning::specs::Reading::is_printable))]
pub fn is_printable(byte: u8) -> bool
    ensures { result ≡ is_printable_byte byte }
{
    is_blank(byte) || (b' ' <= byte && byte <= b'~') || 128 <= byte
}

/// How many bytes at the front are white space.
pub fn leading_blanks(bytes: &[u8]) -> usize
    ensures { result ≡ prefix_len is_blank_byte bytes.now }
{
    bytes.iter().take_while(|byte| is_blank(**byte)).count()
}

/// How many bytes at the front are digits.
pub fn leading_digits(bytes: &[u8]) -> usize
    ensures { result ≡ prefix_len is_digit_byte bytes.now }
{
    bytes.iter().take_while(|byte| is_digit(**byte)).count()
}

/// How many bytes at the front may stand in a simple symbol.
pub fn leading_symbol_bytes(bytes: &[u8]) -> usize
    ensures { result ≡ prefix_len is_symbol bytes.now }
{
    bytes
        .iter()
        .take_while(|byte| is_symbol_byte(**byte))
        .count()
}

/// How many bytes stand before the first line feed or carriage return.
pub fn first_line(bytes: &[u8]) -> usize
    ensures { result ≡ prefix_len (λ b. not (b == 10 || b == 13)) bytes.now }
{
    bytes
        .iter()
        .take_while(|byte| **byte != b'\n' && **byte != b'\r')
        .count()
}

/// How many bytes at the front may stand in a text as they are.
pub fn leading_text(bytes: &[u8]) -> usize
    ensures { result ≡ prefix_len (λ b. not (b == 34) && is_printable_byte b) bytes.now }
{
    bytes
        .iter()
        .take_while(|byte| **byte != b'"' && is_printable(**byte))
        .count()
}

/// How many bytes at the front may stand in a quoted symbol.
pub fn leading_quoted(bytes: &[u8]) -> usize
    ensures { result ≡ prefix_len (λ b. not (b == 124) && not (b == 92) && is_printable_byte b) bytes.now }
{
    bytes
        .iter()
        .take_while(|byte| **byte != b'|' && **byte != b'\\' && is_printable(**byte))
        .count()
}
