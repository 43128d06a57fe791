ghost use Rattle.std.specs.Prelude.{◌≡◌, OnOk};
ghost use Rattle.fem_text.specs.Outside.{appended, TookPrefix};
ghost use Rattle.fem_text.specs.Counts.{HasCause};
ghost use Rattle.diagnostics.specs.Pieces.{piece_text, pieces_text};
ghost use Rattle.diagnostics.specs.Lines.{TookLine};

use fem_text::{Failed, Sink, put_text};
use itoa::Buffer;

/// A piece of a line: a text, or a number in decimal.
#[derive(Clone, Copy)]
pub enum Piece {
    Text(&'static [u8]),
    Number(u32),
}

/// Puts a line in pieces, or a prefix of it where a put fails, which is then the last one.
#[tactic(auto, using(crate::proofs::PieceLaws::told_pieces))]
pub fn put_pieces<K: Sink>(err: &mut K, pieces: &[Piece])
    ensures { TookLine (K.taken err.old) (K.taken err.new) (K.counts err.old) (K.counts err.new) (pieces_text pieces.now) }
{
    let _ = try_pieces(err, pieces);
}

/// Puts the pieces up to the first failed put.
fn try_pieces<K: Sink>(err: &mut K, pieces: &[Piece]) -> Result<(), Failed>
    ensures ok { OnOk result (K.taken err.new ≡ appended (K.taken err.old) (pieces_text pieces.now)) }
    ensures part { TookPrefix (K.taken err.old) (K.taken err.new) (pieces_text pieces.now) }
    ensures cause { HasCause (K.counts err.old) (K.counts err.new) result }
{
    for piece in pieces {
        put_piece(err, *piece)?;
    }
    Ok(())
}

/// Puts a piece.
fn put_piece<K: Sink>(err: &mut K, piece: Piece) -> Result<(), Failed>
    ensures ok { OnOk result (K.taken err.new ≡ appended (K.taken err.old) (piece_text piece)) }
    ensures part { TookPrefix (K.taken err.old) (K.taken err.new) (piece_text piece) }
    ensures cause { HasCause (K.counts err.old) (K.counts err.new) result }
{
    match piece {
        Piece::Text(text) => put_text(err, text),
        Piece::Number(number) => {
            let mut buffer = Buffer::new();
            put_text(err, buffer.format(number).as_bytes())
        }
    }
}
