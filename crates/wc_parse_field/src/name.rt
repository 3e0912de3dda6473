//! Strings as names.

ghost use Rattle.std.specs.Prelude.{◌≡◌};
ghost use Rattle.wc_symbols.specs.Standard.Strings.{bytes_in};
ghost use Rattle.wc_parse_field.specs.Drafting.Fields.{name_of};

use wc_surface::TextName;
use wc_symbols::StringValue;

/// What a string stands for as a name (Core 1.0, 6.3.4); the empty name where that is not UTF-8. It takes no memory.
pub(crate) fn name_of(value: StringValue<'_>) -> TextName<'_>
    ensures { result ≡ name_of (bytes_in value.entry) }
{
    match value {
        StringValue::Plain(text) => {
            // A `str` is known to be UTF-8.
            let _ = text.as_bytes();
            TextName::piece(text)
        }
        StringValue::Own(text) => TextName::own(text),
        StringValue::Bytes(bytes) => name_of_bytes(bytes),
    }
}

fn name_of_bytes<'a>(bytes: Vec<u8>) -> TextName<'a>
    ensures { result ≡ name_of bytes.items }
{
    match String::from_utf8(bytes) {
        Ok(text) => TextName::own(text),
        Err(_) => TextName::piece(""),
    }
}
