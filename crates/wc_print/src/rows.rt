//! Rows that are copied whole, over what is behind them. Their length stands in their type, so that a copy is a few
//! moves of the processor and no loop.

ghost use Rattle.std.specs.Prelude.{◌≡◌, ◌≤◌, ◌+◌, ◌++◌, length, take};

/// Fills a place of as many bytes.
#[inline(always)]
fn fill<const N: usize>(place: &mut [u8], row: &[u8; N])
    requires { length place.old ≡ N }
    ensures { place.new ≡ row.now }
{
    let Some(bytes) = place.as_mut_array() else {
        unreachable!()
    };
    *bytes = *row;
}

/// Copies a row to where it has room, from a place on.
#[inline(always)]
pub fn copy_row<const N: usize>(room: &mut [u8], at: usize, row: &[u8; N])
    requires { at + N ≤ length room.old }
    ensures { take (at + N) room.new ≡ take at room.old ++ row.now }
{
    fill(&mut room[at..at + N], row);
}
