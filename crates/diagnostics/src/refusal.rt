ghost use Rattle.std.specs.Prelude.{◌≡◌};
ghost use Rattle.diagnostics.specs.Lines.{status_of, TookLine};
ghost use Rattle.diagnostics.specs.Lines as lines;

use crate::ending::{Role, put_word};
use crate::kinds::{
    ConstraintKind, LimitKind, LocalKind, MeshKind, MeshTextKind, ProblemTextKind, VectorFault,
};
use crate::line::{Piece, put_pieces};
use fem_text::Sink;

/// Why the words and the texts have no result.
#[derive(Clone, Copy, Debug, PartialEq, Eq)]
pub enum Refusal {
    /// The words are refused.
    Words,
    /// The first fault of the mesh text, and its line.
    MeshText(MeshTextKind, u32),
    /// The first fault of the problem text, and its line.
    ProblemText(ProblemTextKind, u32),
    /// A fault of the mesh, and the cell or the line that has it.
    Mesh(MeshKind, u32),
    /// A fault of the constraints, and the id or the dof that has it.
    Constraint(ConstraintKind, u32),
    /// The local form of this cell has a fault, and no earlier cell fails.
    Local(u32, LocalKind),
    /// An addition of this cell passes 2^80 in size, at this row first, and no earlier cell fails.
    Sum(u32, u32),
    /// Something is too large or too many.
    Limit(LimitKind),
    /// The vector has a fault.
    Vector(VectorFault),
    /// The product of a local row of this cell with the vector passes 2^104 in size, and no cell before it, in the order of the
    /// colours, fails.
    Product(u32),
    /// The store tells what it holds, and the text isn't held.
    Absent(Role),
}

impl Refusal {
    /// The status that the program ends with.
    pub fn status(self) -> u8
        ensures { result ≡ status_of self }
    {
        match self {
            Refusal::Words => 2,
            Refusal::MeshText(_, _) => 3,
            Refusal::ProblemText(_, _) => 4,
            Refusal::Mesh(_, _) => 5,
            Refusal::Constraint(_, _) => 6,
            Refusal::Local(_, _) => 7,
            Refusal::Sum(_, _) => 8,
            Refusal::Limit(_) => 9,
            Refusal::Vector(_) => 14,
            Refusal::Product(_) => 15,
            Refusal::Absent(_) => 17,
        }
    }

    /// Puts the line of the refusal, or a prefix of it where a put fails, which is then the last one.
    pub fn put_line<K: Sink>(self, err: &mut K)
        ensures { TookLine (K.taken err.old) (K.taken err.new) (K.counts err.old) (K.counts err.new) (lines.refusal_line self) }
    {
        match self {
            Refusal::Words => put_word(err, b"2 ", b"Words"),
            Refusal::MeshText(kind, line) => put_named(err, b"3 MeshText line ", line, kind.word()),
            Refusal::ProblemText(kind, line) => {
                put_named(err, b"4 ProblemText line ", line, kind.word())
            }
            Refusal::Mesh(kind, place) => put_fault(err, b"5 Mesh ", kind.word(), place),
            Refusal::Constraint(kind, place) => put_fault(
                err,
                b"6 Constraint ",
                kind.word(),
                place,
            ),
            Refusal::Local(cell, kind) => put_named(err, b"7 Local cell ", cell, kind.word()),
            Refusal::Sum(cell, row) => put_sum(err, cell, row),
            Refusal::Limit(kind) => put_limit(err, kind),
            Refusal::Vector(fault) => put_vector(err, fault),
            Refusal::Product(cell) => put_fault(err, b"15 Product ", b"cell", cell),
            Refusal::Absent(role) => put_word(err, b"17 Absent ", role.word()),
        }
    }
}

/// A line with a number and then a word.
#[tactic(auto, unfolding(crate::specs::Pieces::pieces_text))]
fn put_named<K: Sink>(err: &mut K, front: &'static [u8], number: u32, word: &'static [u8])
    ensures { TookLine (K.taken err.old) (K.taken err.new) (K.counts err.old) (K.counts err.new) (lines.named_line front.now number word.now) }
{
    put_pieces(
        err,
        &[
            Piece::Text(b"assemble: "),
            Piece::Text(front),
            Piece::Number(number),
            Piece::Text(b" "),
            Piece::Text(word),
            Piece::Text(b"\n"),
        ],
    );
}

/// Puts a line with a word and then a number: the program's name, the front with its blank, the word, and the number in decimal;
/// or a prefix of the line where a put fails, which is then the last one.
#[tactic(auto, unfolding(crate::specs::Pieces::pieces_text))]
pub fn put_fault<K: Sink>(err: &mut K, front: &'static [u8], word: &'static [u8], number: u32)
    ensures { TookLine (K.taken err.old) (K.taken err.new) (K.counts err.old) (K.counts err.new) (lines.fault_line front.now word.now number) }
{
    put_pieces(
        err,
        &[
            Piece::Text(b"assemble: "),
            Piece::Text(front),
            Piece::Text(word),
            Piece::Text(b" "),
            Piece::Number(number),
            Piece::Text(b"\n"),
        ],
    );
}

/// The line of a failed sum.
#[tactic(auto, unfolding(crate::specs::Pieces::pieces_text))]
fn put_sum<K: Sink>(err: &mut K, cell: u32, row: u32)
    ensures { TookLine (K.taken err.old) (K.taken err.new) (K.counts err.old) (K.counts err.new) (lines.sum_line cell row) }
{
    put_pieces(
        err,
        &[
            Piece::Text(b"assemble: 8 Sum cell "),
            Piece::Number(cell),
            Piece::Text(b" row "),
            Piece::Number(row),
            Piece::Text(b"\n"),
        ],
    );
}

/// The line of a limit.
fn put_limit<K: Sink>(err: &mut K, kind: LimitKind)
    ensures { TookLine (K.taken err.old) (K.taken err.new) (K.counts err.old) (K.counts err.new) (lines.limit_line kind) }
{
    match kind {
        LimitKind::MeshSize => put_word(err, b"9 Limit ", b"MeshSize"),
        LimitKind::MeshCount(line) => put_fault(err, b"9 Limit MeshCount ", b"line", line),
        LimitKind::ProblemSize => put_word(err, b"9 Limit ", b"ProblemSize"),
        LimitKind::ProblemCount(line) => put_fault(err, b"9 Limit ProblemCount ", b"line", line),
        LimitKind::VectorSize => put_word(err, b"9 Limit ", b"VectorSize"),
        LimitKind::Level => put_word(err, b"9 Limit ", b"Level"),
        LimitKind::Cells => put_word(err, b"9 Limit ", b"Cells"),
        LimitKind::Entries => put_word(err, b"9 Limit ", b"Entries"),
    }
}

/// The line of a fault of a vector.
fn put_vector<K: Sink>(err: &mut K, fault: VectorFault)
    ensures { TookLine (K.taken err.old) (K.taken err.new) (K.counts err.old) (K.counts err.new) (lines.vector_line fault) }
{
    match fault {
        VectorFault::Text(kind, line) => {
            put_named(err, b"14 VectorText line ", line, kind.word())
        }
        VectorFault::Length(length) => put_fault(err, b"14 VectorText ", b"Length", length),
        VectorFault::Value(place) => put_fault(err, b"14 VectorText ", b"Value", place),
    }
}
