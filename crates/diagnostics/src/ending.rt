ghost use Rattle.std.specs.Prelude.{◌≡◌};
ghost use Rattle.diagnostics.specs.Lines.{ending_status, TookLine};
ghost use Rattle.diagnostics.specs.Lines as lines;

use crate::line::{Piece, put_pieces};
use crate::refusal::Refusal;
use fem_fixed::NoMemory;
use fem_text::Sink;

/// A text that a run reads.
#[derive(Clone, Copy, Debug, PartialEq, Eq)]
pub enum Role {
    Mesh,
    Problem,
    Vector,
}

impl Role {
    /// Its word in a line.
    pub(crate) fn word(self) -> &'static [u8]
        ensures { result.now ≡ lines.role_word self }
    {
        match self {
            Role::Mesh => b"mesh",
            Role::Problem => b"problem",
            Role::Vector => b"vector",
        }
    }
}

/// A text that a run writes.
#[derive(Clone, Copy, Debug, PartialEq, Eq)]
pub enum Output {
    /// The matrix, or what stands in its place: the pattern, the colours, the mesh, the product, the marks or the
    /// summary.
    Matrix,
    /// The right side.
    RightSide,
}

impl Output {
    /// Its word in a line.
    pub(crate) fn word(self) -> &'static [u8]
        ensures { result.now ≡ lines.output_word self }
    {
        match self {
            Output::Matrix => b"matrix",
            Output::RightSide => b"rhs",
        }
    }
}

/// How a run ends that doesn't write all its texts.
#[derive(Clone, Copy, Debug, PartialEq, Eq)]
pub enum Ending {
    /// The words and the texts have no result.
    Refused(Refusal),
    /// The read of this text failed.
    ReadFault(Role),
    /// The write of this text failed.
    WriteFault(Output),
    /// Memory ran out.
    NoMemory,
}

impl From<Refusal> for Ending {
    ghost use Rattle.diagnostics.specs.declared.ending.Ending.TheVariants.{Refused as RefusedBy};

    ghost from_gives = { λ refusal e. e ≡ RefusedBy refusal };

    fn from(refusal: Refusal) -> Ending {
        Ending::Refused(refusal)
    }
}

impl From<NoMemory> for Ending {
    ghost use Rattle.diagnostics.specs.declared.ending.Ending.TheVariants.{NoMemory as OutOfMemory};

    ghost from_gives = { λ _ e. e ≡ OutOfMemory };

    fn from(_error: NoMemory) -> Ending {
        Ending::NoMemory
    }
}

impl Ending {
    /// The status that the program ends with.
    pub fn status(self) -> u8
        ensures { result ≡ ending_status self }
    {
        match self {
            Ending::Refused(refusal) => refusal.status(),
            Ending::ReadFault(_) => 10,
            Ending::WriteFault(_) => 11,
            Ending::NoMemory => 12,
        }
    }

    /// Puts the line of the ending, or a prefix of it where a put fails, which is then the last one.
    pub fn put_line<K: Sink>(self, err: &mut K)
        ensures { TookLine (K.taken err.old) (K.taken err.new) (K.counts err.old) (K.counts err.new) (lines.ending_line self) }
    {
        match self {
            Ending::Refused(refusal) => refusal.put_line(err),
            Ending::ReadFault(role) => put_word(err, b"10 ReadFault ", role.word()),
            Ending::WriteFault(output) => put_word(err, b"11 WriteFault ", output.word()),
            Ending::NoMemory => put_word(err, b"12 ", b"NoMemory"),
        }
    }
}

/// Puts a line that ends with a word: the program's name, the front with its blank, and the word; or a prefix of the line where a
/// put fails, which is then the last one.
#[tactic(auto, unfolding(crate::specs::Pieces::pieces_text))]
pub fn put_word<K: Sink>(err: &mut K, front: &'static [u8], word: &'static [u8])
    ensures { TookLine (K.taken err.old) (K.taken err.new) (K.counts err.old) (K.counts err.new) (lines.word_line front.now word.now) }
{
    put_pieces(
        err,
        &[
            Piece::Text(b"assemble: "),
            Piece::Text(front),
            Piece::Text(word),
            Piece::Text(b"\n"),
        ],
    );
}
