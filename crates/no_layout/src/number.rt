ghost use Rattle.std.specs.Prelude.{◌≡◌, ◌==◌, ◌∷◌, ◌+◌, ℕ, length};
ghost use Rattle.std.specs.List.{position, slice_split};
ghost use Rattle.std.specs.Option.{option_copied};
ghost use Rattle.no_layout.specs.Field.{field_of, field_at, fields_of, pieces_behind, length_behind};

/// A field of a part: what stands between two colons.
#[derive(Clone, Copy, Debug, PartialEq, Eq)]
pub enum Field {
    /// The part has no such field.
    Absent,
    /// The field is no number.
    Word,
    /// The number, or 65,536 where it is greater.
    Number(u32),
}

/// The place of the first mark.
fn place(text: &[u8], mark: u8) -> Option<usize>
    ensures { result ≡ position (λ b. b == mark) text.now }
{
    text.iter().position(|byte| *byte == mark)
}

/// What stands before the first mark, and what stands behind it where there is one.
pub fn cut(text: &[u8], mark: u8) -> (&[u8], Option<&[u8]>)
    ensures pieces { slice_split (λ b. b == mark) text.now ≡ result.0.now ∷ pieces_behind mark (option_copied result.1) }
    ensures length { length text.now ≡ length result.0.now + length_behind (option_copied result.1) }
{
    match place(text, mark) {
        None => (text, None),
        Some(at) => {
            let (front, back) = text.split_at(at);
            (front, Some(back.split_at(1).1))
        }
    }
}

/// What a whole field says.
pub fn number(text: &[u8]) -> Field
    ensures { result ≡ field_of text.now }
{
    if text.is_empty() {
        return Field::Word;
    }
    let mut value: u32 = 0;
    for byte in text {
        if *byte < b'0' || b'9' < *byte {
            return Field::Word;
        }
        value = (10 * value + u32::from(*byte - b'0')).min(65_536);
    }
    Field::Number(value)
}

/// The first of the fields that are left, and those behind it.
pub fn next_field(rest: Option<&[u8]>) -> (Field, Option<&[u8]>)
    ensures field { result.0 ≡ field_at 0 (fields_of (option_copied rest.entry)) }
    ensures rest { (k : ℕ) → field_at k (fields_of (option_copied result.1)) ≡ field_at (k + 1) (fields_of (option_copied rest.entry)) }
{
    match rest {
        None => (Field::Absent, None),
        Some(text) => {
            let (front, back) = cut(text, b':');
            (number(front), back)
        }
    }
}
