/// From which side a part of an interior face is visited.
#[derive(Clone, Copy, Debug, PartialEq, Eq)]
pub enum Interior {
    /// From none.
    None,
    /// From one: an equal face from the cell of lower number, a half from the finer cell.
    Once,
    /// From each of the two.
    Both,
}

/// Which workers run, as the flags `assemble_own_cells`, `assemble_boundary_faces`,
/// `assemble_own_interior_faces_once`, `assemble_own_interior_faces_both`, `cells_after_faces`,
/// `assemble_ghost_faces_once`, `assemble_ghost_faces_both` and `assemble_ghost_cells` of deal.II's
/// `MeshWorker::AssembleFlags`.
///
/// A run assembles one subdomain, or all cells. A cell that isn't own is a ghost where it meets an own one at
/// a part of a face.
#[derive(Clone, Copy, Debug, PartialEq, Eq)]
pub struct Flags {
    /// Whether each own cell is visited.
    pub cells: bool,
    /// Whether each face of an own cell at the boundary is visited.
    pub boundary: bool,
    /// From which side a part between two own cells is visited.
    pub interior: Interior,
    /// Whether the visit of the cell comes after those of its faces, and not before them.
    pub cells_after_faces: bool,
    /// The subdomain whose cells are own; where none is named, every cell is.
    pub own: Option<u32>,
    /// Whether a part between an own cell and a ghost is visited, from the own cell: always under `Both`, and
    /// under `Once` where the named subdomain is less than the ghost's.
    pub ghost_parts: Interior,
    /// Whether each ghost is visited.
    pub ghost_cells: bool,
}
