//! Bytes cut at a mark, and the fields of a line.
ghost use Rattle.std.specs.Prelude.{◌≡◌, ℕ, ◌<◌, ◌≤◌, ◌∷◌, length, ◌≢◌, slice_index};
ghost use Rattle.fields.specs.Fields.{Cut, FieldsPart, fields, left};

/// How many bytes stand before the first mark, or all of them.
fn until(bytes: &[u8], mark: u8) -> usize
    ensures within { result ≤ length bytes.now }
    ensures lacks { (k : ℕ) → k < result → slice_index bytes.now k ≢ mark }
    ensures stops { result < length bytes.now → slice_index bytes.now result ≡ mark }
{
    bytes
        .iter()
        .position(|byte| *byte == mark)
        .unwrap_or(bytes.len())
}

/// What stands before the first mark, and what stands after it where there is one.
pub(crate) fn cut(bytes: &[u8], mark: u8) -> (&[u8], Option<&[u8]>)
    ensures { Cut mark bytes.now result.0.now result.1 }
{
    let (front, back) = bytes.split_at(until(bytes, mark));
    match back {
        [_mark, rest @ ..] => (front, Some(rest)),
        [] => (front, None),
    }
}

/// The first field of a line, and what is left of the line where a tab ends that field.
pub fn next_field(line: &[u8]) -> (&[u8], Option<&[u8]>)
    ensures first { fields line.now ≡ result.0.now ∷ left result.1 }
    ensures cut { Cut 9 line.now result.0.now result.1 }
    ensures part { FieldsPart }
{
    cut(line, b'\t')
}
