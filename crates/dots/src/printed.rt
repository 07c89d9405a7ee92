// How a text is printed.
ghost use Rattle.std.specs.Prelude.{◌≡◌, ◌<◌, true};
ghost use Rattle.std.specs.Fmt.{WritesOnOk};
ghost use Rattle.std.specs.List.{flat_map, list_all};
ghost use Rattle.dots.specs.Printed.{hex_digit, hex_of, is_plain, is_visible, printed};

use std::fmt;

/// Prints these bytes: themselves, or `#` and their digits.
pub(crate) fn print<W: fmt::Write>(f: &mut fmt::Formatter<W>, bytes: &[u8]) -> fmt::Result
    ensures { WritesOnOk W.write_str_gives f.old result (printed bytes.now) f.new }
{
    if is_plain(bytes) {
        print_plain(f, bytes)
    } else {
        f.write_str("#")?;
        print_digits(f, bytes)
    }
}

// Prints a text as itself.
fn print_plain<W: fmt::Write>(f: &mut fmt::Formatter<W>, bytes: &[u8]) -> fmt::Result
    requires { is_plain bytes.now ≡ true }
    ensures { WritesOnOk W.write_str_gives f.old result bytes.now f.new }
{
    match str::from_utf8(bytes) {
        Ok(text) => f.write_str(text),
        Err(_) => unreachable!(),
    }
}

// Prints the digits of each byte.
fn print_digits<W: fmt::Write>(f: &mut fmt::Formatter<W>, bytes: &[u8]) -> fmt::Result
    ensures { WritesOnOk W.write_str_gives f.old result (flat_map hex_of bytes.now) f.new }
{
    for byte in bytes {
        print_byte(f, *byte)?;
    }
    Ok(())
}

// Prints the two digits of a byte.
fn print_byte<W: fmt::Write>(f: &mut fmt::Formatter<W>, byte: u8) -> fmt::Result
    ensures { WritesOnOk W.write_str_gives f.old result (hex_of byte) f.new }
{
    f.write_char(digit(byte / 16))?;
    f.write_char(digit(byte % 16))
}

// The digit of a number below 16.
fn digit(number: u8) -> char
    requires { number < 16 }
    ensures { result ≡ hex_digit number }
{
    if number < 10 {
        char::from(b'0' + number)
    } else {
        char::from(b'a' + (number - 10))
    }
}

fn is_all_visible(bytes: &[u8]) -> bool
    ensures { result ≡ list_all is_visible bytes.now }
{
    bytes.iter().all(|byte| (0x21..=0x7e).contains(byte))
}

fn is_plain(bytes: &[u8]) -> bool
    ensures { result ≡ is_plain bytes.now }
{
    match bytes {
        [] | [b'#', ..] => false,
        _ => is_all_visible(bytes),
    }
}
