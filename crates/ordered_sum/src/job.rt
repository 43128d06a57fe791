ghost use Rattle.std.specs.Prelude.{◌≡◌, ◌+◌, ◌*◌, ◌<◌, ◌≤◌, ◌^◌, length};
ghost use Rattle.std.specs.List.{range_with_len};
ghost use Rattle.serial_sum.specs.Rows.{FitsRows};
ghost use Rattle.mesh_loop.specs.Setup.{pattern_of};
ghost use Rattle.ordered_sum.specs.Chunks.{chunks_of, chunk_cells, StandFor, state_after};

use crate::chunk::ChunkCopy;
use block_sums::{System, add_cell_to_state};
use mesh_loop::{CellScratch, Setup};
use ordered_pipeline::{Job, Turn, Worked};
use serial_sum::MatrixState;

/// All cells in chunks, as items of a pipeline: item k is the cells from `k chunk` on, at most `chunk` of them. Its
/// value is the blocks of each of its cells, or the cell's fault. A step adds what they give to the rows, cell after
/// cell, unless the state has failed.
#[derive(Drop)]
pub struct MatrixJob<'a> {
    pub setup: &'a Setup,
    /// How many cells an item has: 1 to 64; the last may have fewer.
    pub chunk: u32,
    /// How many leading binary digits are kept of each sum: 0, which keeps all, to 64.
    pub digits: u32,
    pub ghost some: { 0 < chunk },
    pub ghost digits_few: { digits ≤ 64 },
    pub ghost cells_few: { length setup.now.given.forest.cells < 2 ^ 32 },
}

/// The cells of an item: so many, from the first on.
#[derive(Clone, Copy)]
struct Stretch {
    first: u32,
    count: u32,
}

impl<'a> MatrixJob<'a> {
    /// The job of all cells.
    pub fn new(setup: &'a Setup, chunk: u32, digits: u32) -> MatrixJob<'a>
        requires chunk { (0 < chunk) × (chunk ≤ 64) }
        requires digits { digits ≤ 64 }
        ensures setup { result.setup.now ≡ setup.now }
        ensures chunk { result.chunk ≡ chunk }
        ensures digits { result.digits ≡ digits }
    {
        let _cells = setup.cells();
        MatrixJob {
            setup,
            chunk,
            digits,
        }
    }

    /// The cells of an item.
    fn cells_of(&self, item: u64) -> Stretch
        requires { item < chunks_of self.now.setup.now self.now.chunk }
        ensures are { chunk_cells self.now.setup.now self.now.chunk item ≡ range_with_len result.first result.count }
        ensures there { result.first + result.count ≤ length self.now.setup.now.given.forest.cells }
        ensures few { result.count ≤ self.now.chunk }
    {
        let first = (item * u64::from(self.chunk)) as u32;
        let count = self.chunk.min(self.setup.cells() - first);
        Stretch { first, count }
    }

    /// Adds cells to the state, one after another.
    fn add_cells(&self, cells: Stretch, copy: &ChunkCopy, state: &mut MatrixState)
        requires there { cells.first + cells.count ≤ length self.now.setup.now.given.forest.cells }
        requires stand { StandFor self.now.setup.now (range_with_len cells.first cells.count) copy.now }
        requires fits { FitsRows (pattern_of self.now.setup.now) state.old.rows }
        ensures { state.new ≡ state_after self.now.digits self.now.setup.now state.old (range_with_len cells.first cells.count) }
    {
        self.setup.cells_are_written();
        let system = System {
            pattern: self.setup.pattern(),
            closed: self.setup.closed(),
            digits: self.digits,
        };
        for k in 0..cells.count {
            add_cell_to_state(state, &system, cells.first + k, copy.cell(k));
        }
    }
}

impl Job for MatrixJob<'_> {
    ghost use Rattle.std.specs.Prelude.{◌≡◌, length};
    ghost use Rattle.serial_sum.specs.Rows.{FitsRows};
    ghost use Rattle.mesh_loop.specs.Setup.{pattern_of};
    ghost use Rattle.ordered_sum.specs.Chunks.{chunks_of, chunk_cells, StandFor, state_after};
    ghost use Rattle.serial_sum.proofs.Fitting.{steps_fit};
    ghost use Rattle.mesh_loop.specs.Sum.{parts_of};

    type Scratch = CellScratch;

    type Copy = ChunkCopy;

    type State = MatrixState;

    ghost count = { λ j. chunks_of j.setup.now j.chunk };

    ghost has_place = { λ j scratch. Unit {0} };

    ghost has_room = { λ j copy. length copy ≡ j.chunk };

    ghost fits = { λ j state. FitsRows (pattern_of j.setup.now) state.rows };

    ghost stands = { λ j k copy. StandFor j.setup.now (chunk_cells j.setup.now j.chunk k) copy };

    ghost step = { λ j state k. state_after j.digits j.setup.now state (chunk_cells j.setup.now j.chunk k) };

    ghost all_have_place = { λ j s. tt };

    ghost still_fits = { λ j state k fits. steps_fit j.digits (pattern_of j.setup.now) (parts_of j.setup.now (chunk_cells j.setup.now j.chunk k)) state fits };

    fn items(&self) -> u64 {
        u64::from(self.setup.cells().div_ceil(self.chunk))
    }

    fn work(&self, turn: Turn, scratch: &mut CellScratch, copy: &mut ChunkCopy) -> Worked {
        let cells = self.cells_of(turn.item());
        copy.fill(self.setup, cells.first, cells.count, scratch);
        turn.done()
    }

    fn copy(&self, item: u64, copy: &ChunkCopy, state: &mut MatrixState) {
        self.add_cells(self.cells_of(item), copy, state);
    }
}
