//! Numbers, as a field says them.
ghost use Rattle.std.specs.Prelude.{ℕ, ◌<◌};
ghost use Rattle.fields.specs.Numbers.{Continues, Number};
ghost use Rattle.fields.specs.Reading.{Reads, SaysOne};

/// The number that further digits say after those of a number read so far. (By hand: `parse` takes needless zeros and a sign.)
fn read_on(so_far: u32, bytes: &[u8]) -> Option<u32>
    requires { so_far < 100000 }
    ensures { Reads (Continues so_far) bytes.now result }
{
    match bytes {
        [] => Some(so_far),
        [digit @ b'0'..=b'9', rest @ ..] if so_far < 10_000 => {
            read_on(so_far * 10 + u32::from(*digit - b'0'), rest)
        }
        _ => None,
    }
}

/// The number that a field says, if it is one: 1 to 5 digits with no needless leading zero.
pub fn number(field: &[u8]) -> Option<u32>
    ensures reads { Reads Number field.now result }
    ensures one { SaysOne Number }
{
    match field {
        [b'0', ..] if field.len() == 1 => Some(0),
        [b'1'..=b'9', ..] => read_on(0, field),
        _ => None,
    }
}
