//! What may stand directly before an integer of five bytes or more: an opcode alone, and two bytes.

ghost use Rattle.std.specs.Prelude.{◌≡◌, ◌<◌, true, false};
ghost use Rattle.wc_body.specs.Drafting.FreeEntries.{IsAlone, NotesTwo};

use crate::needs::Needs;
use crate::runs::light::{LightNeeds, light_of, note_pair};

/// Whether the light entries of this opcode have no other byte.
#[inline(always)]
pub(crate) fn is_alone(opcode: u8) -> bool
    ensures { result ≡ true → IsAlone opcode }
{
    light_of(opcode).length == 1
}

/// Notes what the instruction of these two bytes needs, which so many blocks enclose, where it is a light one, and no
/// call nor access of a global; answers whether it was noted.
#[inline(always)]
pub(crate) fn note_two(opcode: u8, second: u8, enclosing: usize, needs: &mut Needs) -> bool
    requires { second < 128 }
    ensures noted { result ≡ true → NotesTwo enclosing opcode second needs.old needs.new }
    ensures same { result ≡ false → needs.new ≡ needs.old }
{
    let light = light_of(opcode);
    if light.length != 2 || enclosing < usize::from(second & light.label) {
        return false;
    }
    let mut noted = LightNeeds::of(needs);
    note_pair(&mut noted, light, second);
    noted.give_back(needs);
    true
}
