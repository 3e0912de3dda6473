//! Names of imports and exports.

ghost use Rattle.std.specs.Prelude.{◌≡◌, ◌≤◌, ◌↔◌, ℕ, length, IsSome, IfSome};
ghost use Rattle.std.specs.Prelude.{List as Seq};
ghost use Rattle.std.specs.Str.{IsUtf8};
ghost use Rattle.std.specs.String.{string_bytes};
ghost use Rattle.wc_ast.specs.Kept.Name.{kept_bytes, short_name};

use arrayvec::ArrayString;
use std::alloc::AllocError;
use std::marker::Model;
use wc_body::TryClone;

/// How many bytes of a name lie in place at most.
const SHORT: usize = 32;

/// The text of a name: in place, or in memory of its own.
#[derive(Drop)]
enum Text {
    Short(ArrayString<SHORT>),
    Long(String),
}

/// A name (Core 1.0, 2.2.4 and 5.2.4). A contract sees the bytes of its UTF-8 encoding; each name is UTF-8. A short one
/// takes no memory of its own.
#[derive(Drop)]
pub struct Name {
    text: Text,
}

impl Model for Name {
    ghost Value = { Seq ℕ };

    ghost view = { λ name. kept_bytes name.text };

    ghost invariant = { λ name. IsUtf8 (kept_bytes name.text) };
}

impl Name {
    /// How many bytes a short name has at most.
    pub const SHORT: usize = SHORT;

    /// The name that is this text, where it is short. It takes no memory.
    pub fn short(text: &str) -> Option<Name>
        ensures variant { IsSome result ↔ (length text.now ≤ short_name) }
        ensures bytes { IfSome result (λ name. name ≡ text.now) }
    {
        let text = ArrayString::from(text).ok()?;
        // A `str` is known to be UTF-8.
        let _ = text.as_str();
        Some(Name {
            text: Text::Short(text),
        })
    }

    /// The name that is this text, which keeps its memory.
    pub fn from_string(text: String) -> Name
        ensures { result ≡ string_bytes text }
    {
        let _ = text.as_str();
        Name {
            text: Text::Long(text),
        }
    }

    /// The name as text.
    pub fn as_str(&self) -> &str
        ensures bytes { result.now ≡ self.now }
        ensures utf8 { IsUtf8 self.now }
    {
        match &self.text {
            Text::Short(text) => text.as_str(),
            Text::Long(text) => text.as_str(),
        }
    }
}

impl TryClone for Name {
    fn try_clone(&self) -> Result<Name, AllocError> {
        let text = match &self.text {
            Text::Short(text) => Text::Short(*text),
            Text::Long(text) => Text::Long(String::from_str(*text.allocator(), text.as_str())?),
        };
        Ok(Name { text })
    }
}
