//! Kinds of bytes, and how many of a kind stand at the front.

ghost use Rattle.rml_lex.specs.Bytes.{is_dash, is_digit, is_exponent, is_letter, is_minus, is_name_byte};
ghost use Rattle.std.specs.List.{take_while};
ghost use Rattle.std.specs.Prelude.{◌≡◌, length};

pub fn is_letter_byte(b: u8) -> bool
    ensures { result ≡ is_letter b }
{
    b.is_ascii_alphabetic()
}

pub fn is_digit_byte(b: u8) -> bool
    ensures { result ≡ is_digit b }
{
    b.is_ascii_digit()
}

pub fn is_minus_byte(b: u8) -> bool
    ensures { result ≡ is_minus b }
{
    b == b'-' || b == b'~'
}

pub fn is_exponent_byte(b: u8) -> bool
    ensures { result ≡ is_exponent b }
{
    b == b'e' || b == b'E'
}

fn is_in_name(b: u8) -> bool
    ensures { result ≡ is_name_byte b }
{
    is_letter_byte(b) || is_digit_byte(b) || b == b'_' || b == b'\''
}

/// How many bytes at the front can go on in a name.
pub fn name_length(bytes: &[u8]) -> usize
    ensures { result ≡ length (take_while is_name_byte bytes.now) }
{
    bytes.iter().take_while(|b| is_in_name(**b)).count()
}

/// How many digits stand at the front.
pub fn digits_length(bytes: &[u8]) -> usize
    ensures { result ≡ length (take_while is_digit bytes.now) }
{
    bytes.iter().take_while(|b| is_digit_byte(**b)).count()
}

/// How many dashes stand at the front.
pub fn dashes_length(bytes: &[u8]) -> usize
    ensures { result ≡ length (take_while is_dash bytes.now) }
{
    bytes.iter().take_while(|b| **b == b'-').count()
}
