ghost use Rattle.std.specs.Prelude.{◌≡◌, ◌≢◌, ◌<◌, ◌≤◌, ◌^◌, length, All, IfOk, IfErr, OnErr};
ghost use Rattle.fem_fixed.specs.Mesh.{IsWithinReach};
ghost use Rattle.quad_mesh.specs.Faces.{quad_at};
ghost use Rattle.hanging_refine.specs.Refined.{unrefined, active_at, cell_at};
ghost use Rattle.hanging_refine.specs.Points.{cell_points};
ghost use Rattle.hanging_refine.specs.Sides.{IsSideOf, MeetsOnly};
ghost use Rattle.hanging_refine.specs.Order.{IsInOrder};
ghost use Rattle.hanging_refine.specs.Grown.{IsGrown};
ghost use Rattle.hanging_refine.specs.Laws.{AreCoveredOnce};
ghost use Rattle.hanging_refine.specs.Numbered.{AreNamedBy};
ghost use Rattle.hanging_refine.specs.Refinement.{IsRefinedBy, IsRefusal};
ghost use Rattle.hanging_refine.specs.declared.fault.RefineFault.TheVariants.{NoMemory as Memory};

use crate::children::next_cells;
use crate::closure::chosen_marks;
use crate::fault::RefineFault;
use crate::refusals::{checked_count, next_places};
use crate::sides::{ActiveSide, coarse_sides};
use crate::step::next_sides;
use crate::stored::{StoredCell, coarse_cells};
use corner_names::CornerTable;
use fem_fixed::{NoMemory, Point};
use quad_mesh::QuadMesh;
use std::alloc::Global;
use std::marker::Model;

/// A refined mesh. Contracts see the coarse mesh and the active cells, in order: by coarse cell, then by
/// the child numbers from there.
#[derive(Drop)]
pub struct Forest {
    alloc: Global,
    mesh: QuadMesh,
    cells: Vec<StoredCell>,
    sides: Vec<[ActiveSide; 4]>,
    table: CornerTable,
}

impl Model for Forest {
    ghost use Rattle.std.specs.Prelude.{map};
    ghost use Rattle.hanging_refine.specs.Refined.{RefinedMesh};

    ghost Value = { RefinedMesh };

    ghost use Rattle.hanging_refine.specs.Stored.{shown, IsSound};

    ghost view = { λ a. record { mesh = a.mesh; cells = map shown a.cells.items } };

    ghost invariant = { λ a. IsSound a.mesh a.cells.items a.sides.items a.table };
}

impl Forest {
    /// The refined mesh in which each coarse cell is active.
    pub fn of(alloc: Global, mesh: QuadMesh) -> Result<Forest, NoMemory>
        ensures { IfOk result (λ forest. forest ≡ unrefined mesh) }
    {
        let cells = coarse_cells(alloc, &mesh)?;
        let sides = coarse_sides(alloc, &mesh)?;
        let table = CornerTable::new(alloc);
        Ok(Forest {
            alloc,
            mesh,
            cells,
            sides,
            table,
        })
    }

    /// How many active cells there are. They are numbered by coarse cell, and then by the child numbers
    /// from there.
    ///
    /// Each face of an active cell is covered in exactly one of the four ways of [`ActiveSide`].
    pub fn cells(&self) -> u32
        ensures count { result ≡ length self.now.cells }
        ensures small { result ≤ 2 ^ 20 }
        ensures ordered { IsInOrder self.now }
        ensures grown { IsGrown self.now }
        ensures covered { AreCoveredOnce self.now }
    {
        self.cells.len() as u32
    }

    /// The coarse cell of an active cell.
    pub fn coarse(&self, cell: u32) -> u32
        requires { cell < length self.now.cells }
        ensures { result ≡ (active_at self.now cell).coarse }
    {
        self.cells[cell as usize].coarse
    }

    /// How often a coarse cell was divided for an active cell.
    pub fn level(&self, cell: u32) -> u8
        requires { cell < length self.now.cells }
        ensures value { result ≡ length (active_at self.now cell).path }
        ensures low { result ≤ 12 }
    {
        self.cells[cell as usize].level
    }

    /// The child numbers from the coarse cell to an active cell. Child k stands at vertex k.
    pub fn path(&self, cell: u32) -> &[u8]
        requires { cell < length self.now.cells }
        ensures { result.now ≡ (active_at self.now cell).path }
    {
        let stored = &self.cells[cell as usize];
        &stored.path[..stored.level as usize]
    }

    /// The material of an active cell, which is that of its coarse cell.
    pub fn material(&self, cell: u32) -> u32
        requires { cell < length self.now.cells }
        ensures { result ≡ (quad_at self.now.mesh.cells (active_at self.now cell).coarse).material }
    {
        self.mesh.material(self.cells[cell as usize].coarse)
    }

    /// The numbers of the corners of an active cell, in lexicographic place, x fastest. Two numbers are equal
    /// exactly where the names of the corners are; the number of a node is its position, and that of every
    /// other corner is at least 2^20.
    pub fn corners(&self, cell: u32) -> [u32; 4]
        requires { cell < length self.now.cells }
        ensures value { result ≡ (active_at self.now cell).corners }
        ensures names { AreNamedBy self.now }
    {
        self.cells[cell as usize].corners
    }

    /// The points of the corners of an active cell, in ticks of 2^-16.
    pub fn points(&self, cell: u32) -> [Point; 4]
        requires { cell < length self.now.cells }
        ensures value { result ≡ cell_points self.now.mesh (cell_at self.now cell) }
        ensures reach { All IsWithinReach result }
    {
        self.cells[cell as usize].points
    }

    /// What lies on the other side of a face of an active cell.
    pub fn side(&self, cell: u32, face: u8) -> ActiveSide
        requires cell { cell < length self.now.cells }
        requires face { face < 4 }
        ensures side { IsSideOf self.now cell face result }
        ensures only { MeetsOnly self.now cell face result }
    {
        self.sides[cell as usize][face as usize]
    }

    /// Refines the asked cells, and with each refined cell each active cell one level lower that meets it
    /// at a part of an edge; numbers the active cells anew, and tells how many cells were refined.
    ///
    /// # Errors
    ///
    /// The first reason, in the order of [`RefineFault`]. Nothing is changed then.
    pub fn refine(&mut self, asked: &[u32]) -> Result<u32, RefineFault>
        ensures ok { IfOk result (λ count. IsRefinedBy self.old asked.now self.new count) }
        ensures fault { IfErr result (λ fault. fault ≢ Memory → IsRefusal self.old asked.now fault) }
        ensures same { OnErr result (self.new ≡ self.old) }
    {
        let marks = chosen_marks(self.alloc, &self.cells, &self.sides, asked)?;
        let count = match checked_count(&self.cells, &marks) {
            Ok(count) => count,
            Err(fault) => return Err(fault),
        };
        let places = next_places(self.alloc, &marks)?;
        let sides = next_sides(self.alloc, &self.cells, &self.sides, &marks, &places)?;
        let cells = next_cells(self.alloc, &self.cells, &marks, &mut self.table)?;
        self.cells = cells;
        self.sides = sides;
        Ok(count)
    }
}
