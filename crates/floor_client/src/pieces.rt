//! The smallest pieces of a line: numbers, bytes in hexadecimal, and texts in double quotes.

ghost use Rattle.std.specs.Prelude.{◌≡◌, ◌<◌, ◌++◌, OnOk};
ghost use Rattle.std.specs.String.{string_bytes};
ghost use Rattle.std.specs.Fmt.{decimal};
ghost use Rattle.std.specs.List.{flat_map};
ghost use Rattle.floor_client.specs.Rendered as spec;

use std::alloc::AllocError;

/// Appends a number in decimal.
pub fn put_number(out: &mut String, number: u32) -> Result<(), AllocError>
    ensures { OnOk result (string_bytes out.new ≡ string_bytes out.old ++ decimal number) }
{
    write!(out, "{number}")
}

/// Appends the two hexadecimal digits of a byte.
pub fn put_hex(out: &mut String, byte: u8) -> Result<(), AllocError>
    ensures { OnOk result (string_bytes out.new ≡ string_bytes out.old ++ spec.hex_digits byte) }
{
    write!(out, "{byte:02x}")
}

/// Appends the hexadecimal digits of bytes.
pub fn put_hex_digits(out: &mut String, bytes: &[u8]) -> Result<(), AllocError>
    ensures { OnOk result (string_bytes out.new
        ≡ string_bytes out.old ++ flat_map spec.hex_digits bytes.now) }
{
    for byte in bytes {
        put_hex(out, *byte)?;
    }
    Ok(())
}

/// Appends a text in double quotes.
pub fn put_quoted(out: &mut String, text: &[u8]) -> Result<(), AllocError>
    ensures { OnOk result (string_bytes out.new ≡ string_bytes out.old ++ spec.quoted text.now) }
{
    out.push('"')?;
    put_quoted_bytes(out, text)?;
    out.push('"')
}

fn put_quoted_bytes(out: &mut String, text: &[u8]) -> Result<(), AllocError>
    ensures { OnOk result (string_bytes out.new
        ≡ string_bytes out.old ++ flat_map spec.quoted_byte text.now) }
{
    for byte in text {
        put_quoted_byte(out, *byte)?;
    }
    Ok(())
}

fn put_quoted_byte(out: &mut String, byte: u8) -> Result<(), AllocError>
    ensures { OnOk result (string_bytes out.new ≡ string_bytes out.old ++ spec.quoted_byte byte) }
{
    if is_plain(byte) {
        return out.push(char::from(byte));
    }
    out.push_str("\\x")?;
    put_hex(out, byte)
}

/// Whether the byte stands for itself between double quotes.
fn is_plain(byte: u8) -> bool
    ensures { result ≡ spec.is_plain byte }
{
    0x20 <= byte && byte <= 0x7e && byte != b'"' && byte != b'\\'
}
