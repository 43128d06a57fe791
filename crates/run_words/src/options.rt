/// What a run makes.
#[derive(Clone, Copy, Debug, PartialEq, Eq)]
pub enum Mode<'a> {
    /// Texts of the system of the mesh and the problem.
    System(SystemMode),
    /// The text of the mesh that is read, in UCD.
    Mesh,
    /// What is made of the values of the vector text under a name, one for each degree of freedom. `-` is standard input.
    Vector { name: &'a str, task: VectorTask },
}

/// What is made of a vector.
#[derive(Clone, Copy, Debug, PartialEq, Eq)]
pub enum VectorTask {
    /// The product of the operator with it, without a matrix.
    Product,
    /// The cells with the greatest jumps of its gradient, at most so many, and their indicators.
    Marks(u32),
    /// The sums, cell by cell, on the mesh after one more step of refinement, of these cells.
    Adapt(u32),
}

/// Which texts of a system a run makes.
#[derive(Clone, Copy, Debug, PartialEq, Eq)]
pub enum SystemMode {
    /// The sums, cell by cell.
    Serial,
    /// The same by threads that keep the order of the cells.
    Ordered,
    /// The sums by colours.
    Colored,
    /// The pattern of the matrix.
    Pattern,
    /// The colours of the cells.
    Colors,
}

/// The format of a mesh text that is read.
#[derive(Clone, Copy, Debug, PartialEq, Eq)]
pub enum Format {
    /// UCD of AVS.
    Ucd,
    /// MSH 2.2 of Gmsh.
    Msh,
}

/// From which sides the interior faces are visited.
#[derive(Clone, Copy, Debug, PartialEq, Eq)]
pub enum Faces {
    /// From none.
    None,
    /// From one.
    Once,
    /// From each of the two.
    Both,
}

/// The run of one subdomain: its number, from which sides its cells' parts with ghosts are visited, and whether the
/// ghosts are.
#[derive(Clone, Copy, Debug, PartialEq, Eq)]
pub struct Subdomain {
    pub id: u32,
    pub ghost_parts: Faces,
    pub ghost_cells: bool,
}

/// What is assembled.
#[derive(Clone, Copy, Debug, PartialEq, Eq)]
pub enum Source<'a> {
    /// The mesh text under a name, in a format, with the problem text under another name, if any. `-` is standard
    /// input.
    Texts {
        mesh: &'a str,
        format: Format,
        problem: Option<&'a str>,
    },
    /// The texts that are generated for n cells in a row and a seed.
    Generated {
        n: u32,
        seed: u64,
    },
}

/// How many threads, places in a queue, cells in a piece and scratch objects a parallel mode uses.
#[derive(Clone, Copy, Debug, PartialEq, Eq)]
pub struct Plan {
    pub workers: u32,
    pub queue: u32,
    pub chunk: u32,
    pub scratch: u32,
}

/// Where a text is written.
#[derive(Clone, Copy, Debug, PartialEq, Eq)]
pub enum Destination<'a> {
    /// Standard output.
    Standard,
    /// Under a name.
    Named(&'a str),
}

/// What is written.
#[derive(Clone, Copy, Debug, PartialEq, Eq)]
pub enum Output<'a> {
    /// The summary, to standard output.
    Summary,
    /// The matrix, pattern, colours, mesh, product or marks, and the right side where it has a destination.
    Texts {
        matrix: Destination<'a>,
        right_side: Option<Destination<'a>>,
    },
}

/// What the words ask for. `digits` is how many leading binary digits each sum keeps; 0 keeps all. `degree` is that of the
/// shape functions, 1 or 2, and 1 where cells are marked. Where no subdomain is named, the run is over all cells.
#[derive(Clone, Copy, Debug, PartialEq, Eq)]
pub struct Options<'a> {
    pub mode: Mode<'a>,
    pub source: Source<'a>,
    pub plan: Plan,
    pub digits: u32,
    pub degree: u32,
    pub faces: Faces,
    pub subdomain: Option<Subdomain>,
    pub output: Output<'a>,
}

/// What the words of a batch ask for: the name of its text, how many workers run its jobs, and where its text goes. `-` is
/// standard input.
#[derive(Clone, Copy, Debug, PartialEq, Eq)]
pub struct BatchOptions<'a> {
    pub name: &'a str,
    pub workers: u32,
    pub destination: Destination<'a>,
}
