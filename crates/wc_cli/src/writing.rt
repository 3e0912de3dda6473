//! A text in pieces, to a writer whose failure is dropped.

ghost use Rattle.wc_canon.specs.Standard.Text.{piece_text, pieces_text};
ghost use Rattle.wc_cli.specs.Standard.Failing.{GoesOut};

use itoa::Buffer;
use std::io::Write;
use wc_canon::Piece;
use wc_device::Device;

/// Writes a text, where the writer hasn't failed.
fn put<E: Write>(e: &mut Device<E>, text: &str)
    ensures { GoesOut E.contents text.now e.old e.new }
{
    if e.failed() {
        return;
    }
    let _failed = e.write_all(text.as_bytes());
}

/// Writes a piece.
fn put_piece<E: Write>(e: &mut Device<E>, piece: Piece<'_>)
    ensures { GoesOut E.contents (piece_text piece.entry) e.old e.new }
{
    match piece {
        Piece::Words(words) => put(e, words),
        Piece::Number(n) => put(e, Buffer::new().format(n)),
    }
}

/// Writes pieces behind one another, up to a failure of the writer. It takes no memory.
pub(crate) fn put_pieces<E: Write>(e: &mut Device<E>, pieces: &[Piece<'_>])
    ensures { GoesOut E.contents (pieces_text pieces.now) e.old e.new }
{
    for piece in pieces {
        put_piece(e, *piece);
    }
}
