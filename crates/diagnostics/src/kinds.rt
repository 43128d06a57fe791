ghost use Rattle.std.specs.Prelude.{◌≡◌};
ghost use Rattle.diagnostics.specs.Lines as lines;

/// The kinds of fault of a mesh text that aren't limits: of both formats, of UCD alone (`Header`, `CellLine`), or of MSH
/// alone (`Format`, `ElementLine`, `Section`).
#[derive(Clone, Copy, Debug, PartialEq, Eq)]
pub enum MeshTextKind {
    Header,
    Format,
    Section,
    NodeLine,
    CellLine,
    ElementLine,
    Number,
    DuplicateId,
    UnknownNode,
    UnsupportedType,
    TooFew,
}

impl MeshTextKind {
    /// Its word in a line.
    pub(crate) fn word(self) -> &'static [u8]
        ensures { result.now ≡ lines.mesh_text_word self }
    {
        match self {
            MeshTextKind::Header => b"Header",
            MeshTextKind::Format => b"Format",
            MeshTextKind::Section => b"Section",
            MeshTextKind::NodeLine => b"NodeLine",
            MeshTextKind::CellLine => b"CellLine",
            MeshTextKind::ElementLine => b"ElementLine",
            MeshTextKind::Number => b"Number",
            MeshTextKind::DuplicateId => b"DuplicateId",
            MeshTextKind::UnknownNode => b"UnknownNode",
            MeshTextKind::UnsupportedType => b"UnsupportedType",
            MeshTextKind::TooFew => b"TooFew",
        }
    }
}

/// The kinds of fault of a problem text that aren't limits.
#[derive(Clone, Copy, Debug, PartialEq, Eq)]
pub enum ProblemTextKind {
    Word,
    Number,
    Repeated,
}

impl ProblemTextKind {
    /// Its word in a line.
    pub(crate) fn word(self) -> &'static [u8]
        ensures { result.now ≡ lines.problem_text_word self }
    {
        match self {
            ProblemTextKind::Word => b"Word",
            ProblemTextKind::Number => b"Number",
            ProblemTextKind::Repeated => b"Repeated",
        }
    }
}

/// The kinds of fault of the text of a vector.
#[derive(Clone, Copy, Debug, PartialEq, Eq)]
pub enum VectorTextKind {
    Banner,
    Size,
    Entry,
    TooFew,
}

impl VectorTextKind {
    /// Its word in a line.
    pub(crate) fn word(self) -> &'static [u8]
        ensures { result.now ≡ lines.vector_text_word self }
    {
        match self {
            VectorTextKind::Banner => b"Banner",
            VectorTextKind::Size => b"Size",
            VectorTextKind::Entry => b"Entry",
            VectorTextKind::TooFew => b"TooFew",
        }
    }
}

/// What is wrong with a vector.
#[derive(Clone, Copy, Debug, PartialEq, Eq)]
pub enum VectorFault {
    /// The first fault of its text, and its line.
    Text(VectorTextKind, u32),
    /// It has so many values, and not one for each degree of freedom.
    Length(u32),
    /// The value at this place is too large, and it is the first such value.
    Value(u32),
}

/// The kinds of fault of a mesh: of the coarse mesh, and of a step of its refinement.
#[derive(Clone, Copy, Debug, PartialEq, Eq)]
pub enum MeshKind {
    RepeatedCorner,
    ZeroArea,
    NotConvex,
    EdgeShared,
    LineOffEdge,
    BoundaryTwice,
    NoSuchCell,
    Flat,
}

impl MeshKind {
    /// Its word in a line.
    pub(crate) fn word(self) -> &'static [u8]
        ensures { result.now ≡ lines.mesh_word self }
    {
        match self {
            MeshKind::RepeatedCorner => b"RepeatedCorner",
            MeshKind::ZeroArea => b"ZeroArea",
            MeshKind::NotConvex => b"NotConvex",
            MeshKind::EdgeShared => b"EdgeShared",
            MeshKind::LineOffEdge => b"LineOffEdge",
            MeshKind::BoundaryTwice => b"BoundaryTwice",
            MeshKind::NoSuchCell => b"NoSuchCell",
            MeshKind::Flat => b"Flat",
        }
    }
}

/// The kinds of fault of constraint lines.
#[derive(Clone, Copy, Debug, PartialEq, Eq)]
pub enum ConstraintKind {
    UnknownNode,
    Twice,
    Cycle,
    Weight,
    Terms,
}

impl ConstraintKind {
    /// Its word in a line.
    pub(crate) fn word(self) -> &'static [u8]
        ensures { result.now ≡ lines.constraint_word self }
    {
        match self {
            ConstraintKind::UnknownNode => b"UnknownNode",
            ConstraintKind::Twice => b"Twice",
            ConstraintKind::Cycle => b"Cycle",
            ConstraintKind::Weight => b"Weight",
            ConstraintKind::Terms => b"Terms",
        }
    }
}

/// The kinds of fault of a local form.
#[derive(Clone, Copy, Debug, PartialEq, Eq)]
pub enum LocalKind {
    /// The cell is folded.
    Distorted,
    /// A number of the form is too large.
    Size,
}

impl LocalKind {
    /// Its word in a line.
    pub(crate) fn word(self) -> &'static [u8]
        ensures { result.now ≡ lines.local_word self }
    {
        match self {
            LocalKind::Distorted => b"Distorted",
            LocalKind::Size => b"Size",
        }
    }
}

/// What is too large or too many.
#[derive(Clone, Copy, Debug, PartialEq, Eq)]
pub enum LimitKind {
    /// The mesh text is above 268,435,456 bytes.
    MeshSize,
    /// The mesh text counts too many, on this line.
    MeshCount(u32),
    /// The problem text is above 268,435,456 bytes.
    ProblemSize,
    /// The problem text has too many lines or terms, on this line.
    ProblemCount(u32),
    /// The vector's text is above 268,435,456 bytes.
    VectorSize,
    /// A cell would be refined more than twelve times.
    Level,
    /// There would be more than 1,048,576 active cells.
    Cells,
    /// The pattern has more than 33,554,432 entries.
    Entries,
}
