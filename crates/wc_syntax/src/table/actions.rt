//! What a token does.

ghost use Rattle.std.specs.Prelude.{◌≡◌, Some, None};

use crate::place::{Action, Move};
use crate::role::Role;

/// The token isn't kept.
#[inline(always)]
pub fn drops(go: Move) -> Option<Action>
    ensures { result ≡ Some (record { keep = None; go = go }) }
{
    Some(Action { keep: None, go })
}

/// The token is kept in this role.
#[inline(always)]
pub fn keeps(role: Role, go: Move) -> Option<Action>
    ensures { result ≡ Some (record { keep = Some role; go = go }) }
{
    Some(Action {
        keep: Some(role),
        go,
    })
}
