//! Escapes: how a script writes the bytes of a line of the text.
//!
//! `\t`, `\r` and `\\` stand for a tab, a carriage return and a backslash, `\x` and two digits for the byte with this number in
//! base 16, and `\e` for nothing, as in an empty line. `\*126{..}` stands for what is in the braces, 126 times.
ghost use Rattle.std.specs.Prelude.{◌<◌, length, IfOk};

use anyhow::bail;
use std::alloc::Global;

/// The number of a digit in base 16, in lower case only, which `char::to_digit` would not ask.
fn hex_digit(byte: u8) -> anyhow::Result<u8> {
    match byte {
        b'0'..=b'9' => Ok(byte - b'0'),
        b'a'..=b'f' => Ok(byte - b'a' + 10),
        _ => bail!("no digit in base 16 after \\x"),
    }
}

/// Adds what a text with no repetition begins with, and gives the rest of the text.
fn read_one<'t>(bytes: &mut Vec<u8>, text: &'t [u8]) -> anyhow::Result<&'t [u8]>
    ensures { IfOk result (λ rest. length rest.now < length text.now) }
{
    let (byte, rest) = match text {
        [b'\\', b'e', rest @ ..] => return Ok(rest),
        [b'\\', b't', rest @ ..] => (b'\t', rest),
        [b'\\', b'r', rest @ ..] => (b'\r', rest),
        [b'\\', b'\\', rest @ ..] => (b'\\', rest),
        [b'\\', b'x', high, low, rest @ ..] => (hex_digit(*high)? << 4 | hex_digit(*low)?, rest),
        [b'\\', b'x', high] => {
            hex_digit(*high)?;
            bail!("an escape without its end")
        }
        [] | [b'\\'] | [b'\\', b'x'] => bail!("an escape without its end"),
        [b'\\', b'*', repetition @ ..] => {
            read_times(repetition)?;
            bail!("a repetition within another")
        }
        [b'\\', ..] => bail!("an unknown escape"),
        [byte, rest @ ..] => (*byte, rest),
    };
    bytes.push(byte)?;
    Ok(rest)
}

/// The number that bytes say, all of them digits, as far as 32 bits go; none say 0, which `parse` would refuse.
fn number(digits: &[u8]) -> u32 {
    digits.iter().fold(0u32, |number, digit| {
        number
            .saturating_mul(10)
            .saturating_add(u32::from(digit.saturating_sub(b'0')))
    })
}

/// How often a repetition is wanted, of which the text stands after `\*`, and the text after its brace.
fn read_times(text: &[u8]) -> anyhow::Result<(u32, &[u8])>
    ensures { IfOk result (λ read. length read.1.now < length text.now) }
{
    let end = text
        .iter()
        .position(|byte| !byte.is_ascii_digit())
        .unwrap_or(text.len());
    match text.split_at(end) {
        (digits, [b'{', body @ ..]) => Ok((number(digits), body)),
        (_, []) => bail!("an escape without its end"),
        _ => bail!("no brace after the number of a repetition"),
    }
}

/// Adds a repetition, of which the text stands after `\*`, and gives the rest of the text.
fn read_repetition<'t>(bytes: &mut Vec<u8>, text: &'t [u8]) -> anyhow::Result<&'t [u8]>
    ensures { IfOk result (λ rest. length rest.now < length text.now) }
{
    let (times, mut body) = read_times(text)?;
    let mut repeated = Vec::new(*bytes.allocator());
    // `while`: how much a step reads, the step says
    while !body.starts_with(b"}") {
        body = read_one(&mut repeated, body)?;
    }
    let rest = &body[1..];
    for _ in 0..times {
        bytes.extend_from_slice(repeated.as_slice())?;
    }
    Ok(rest)
}

/// The bytes of a line that is written with escapes.
pub fn unfold(heap: Global, line: &str) -> anyhow::Result<Vec<u8>> {
    let mut bytes = Vec::new(heap);
    let mut text = line.as_bytes();
    while !text.is_empty() {
        text = match text {
            [b'\\', b'*', repetition @ ..] => read_repetition(&mut bytes, repetition)?,
            _ => read_one(&mut bytes, text)?,
        };
    }
    Ok(bytes)
}

#[cfg(test)]
mod tests {
    use super::unfold;
    use std::test::Fail;

    const NO_END: &str = "an escape without its end";

    const NO_DIGIT: &str = "no digit in base 16 after \\x";

    const NO_BRACE: &str = "no brace after the number of a repetition";

    const WITHIN: &str = "a repetition within another";

    const UNKNOWN: &str = "an unknown escape";

    /// The fault at the lowest place is told, whatever comes after it.
    #[test]
    fn a_malformed_line_tells_its_first_fault(rt: HostRuntime) -> Result<(), Fail> {
        let alloc = rt.alloc();
        for (line, fault) in [
            ("\\", NO_END),
            ("\\x", NO_END),
            ("\\x4", NO_END),
            ("\\xg", NO_DIGIT),
            ("\\xA1", NO_DIGIT),
            ("\\x4g", NO_DIGIT),
            ("\\q", UNKNOWN),
            ("\\*", NO_END),
            ("\\*12", NO_END),
            ("\\*1q{a}", NO_BRACE),
            ("\\*2{a", NO_END),
            ("\\*2{\\}", UNKNOWN),
            ("\\*2{\\x}", NO_DIGIT),
            ("\\*2{\\x4}", NO_DIGIT),
            ("\\*2{\\q", UNKNOWN),
            ("\\*2{\\*3", NO_END),
            ("\\*2{\\*3}", NO_BRACE),
            ("\\*2{\\*3{a}}", WITHIN),
            ("a\\q\\xg", UNKNOWN),
        ] {
            let told = match unfold(alloc, line) {
                Ok(_) => format!(in alloc; "no fault")?,
                Err(error) => format!(in alloc; "{error}")?,
            };
            assert_eq!(rt; told.as_str(), fault, "at {line}");
        }
        Ok(())
    }

    #[test]
    fn escapes_stand_for_bytes(rt: HostRuntime) -> Result<(), Fail> {
        for (line, bytes) in [
            ("a\\t\\r\\\\\\x0f\\e}", "a\t\r\\\x0f}"),
            ("\\*3{a\\x62}c", "abababc"),
            ("\\*0{a}\\*{b}}", "}"),
        ] {
            assert_eq!(rt; unfold(rt.alloc(), line)?.as_slice(), bytes.as_bytes());
        }
        Ok(())
    }
}
