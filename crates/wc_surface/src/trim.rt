//! Room that is given back.

ghost use Rattle.std.specs.Prelude.{◌≡◌};

use wc_ast::List;

/// The same items, without the room for more.
pub(crate) fn trimmed<T>(items: Vec<T>) -> Vec<T>
    ensures { result.items ≡ items.items }
{
    let mut items = items;
    if items.capacity() > items.len() {
        items.shrink_to_fit();
    }
    items
}

/// The same list, without the room for more.
pub(crate) fn trimmed_list<T>(list: List<T>) -> List<T>
    ensures { result ≡ list }
{
    List::from_vec(trimmed(list.into_vec()))
}
