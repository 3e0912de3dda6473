//! What a word may say by its first characters.

ghost use Rattle.std.specs.Prelude.{◌≡◌};
ghost use Rattle.wc_symbols.specs.Reading.Shapes.{shape_of};

/// What a word may say by its first characters.
#[derive(Clone, Copy)]
pub enum Shape {
    /// A natural number: the word begins with a digit.
    Natural,
    /// A number behind a plus sign.
    Plus,
    /// A number behind a minus sign.
    Minus,
    /// The offset of a load or a store.
    Offset,
    /// Its alignment.
    Align,
    /// A name, or nothing.
    Name,
}

/// The shape of a word.
#[inline(always)]
pub fn shape_of(word: &[u8]) -> Shape
    ensures { result ≡ shape_of word.now }
{
    let Some((first, _)) = word.split_first() else {
        return Shape::Name;
    };
    match *first {
        b'0'..=b'9' => Shape::Natural,
        b'+' => Shape::Plus,
        b'-' => Shape::Minus,
        b'o' if word.starts_with(b"offset=") => Shape::Offset,
        b'a' if word.starts_with(b"align=") => Shape::Align,
        _ => Shape::Name,
    }
}
