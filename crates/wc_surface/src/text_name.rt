//! Names of imports and exports, as texts have them.

ghost use Rattle.std.specs.Prelude.{◌≡◌};
ghost use Rattle.std.specs.String.{string_bytes};

use std::marker::Model;

/// The text of a name: a piece of the whole text, or memory of its own.
#[derive(Drop)]
enum NameText<'a> {
    Piece(&'a str),
    Own(String),
}

/// A name (Core 1.0, 6.3.4). A contract sees the bytes of its UTF-8 encoding. One without escapes takes no memory of
/// its own.
#[derive(Drop)]
pub struct TextName<'a> {
    text: NameText<'a>,
}

impl<'a> Model for TextName<'a> {
    ghost use Rattle.std.specs.Prelude.{ℕ, List};
    ghost use Rattle.wc_surface.specs.Kept.Names.{name_bytes};

    ghost Value = { List ℕ };

    ghost view = { λ name. name_bytes name.text };
}

impl<'a> TextName<'a> {
    /// The name that is this piece of the text.
    #[inline(always)]
    pub fn piece(text: &'a str) -> TextName<'a>
        ensures { result ≡ text.now }
    {
        TextName {
            text: NameText::Piece(text),
        }
    }

    /// The name that is this text, which keeps its memory.
    #[inline(always)]
    pub fn own(text: String) -> TextName<'a>
        ensures { result ≡ string_bytes text }
    {
        TextName {
            text: NameText::Own(text),
        }
    }

    /// The name as text.
    #[inline(always)]
    pub fn as_str(&self) -> &str
        ensures { result.now ≡ self.now }
    {
        match &self.text {
            NameText::Piece(text) => text,
            NameText::Own(text) => text.as_str(),
        }
    }
}
