//! The masses by a pipeline, cell after cell.
ghost use Rattle.std.specs.Prelude.{◌≡◌, ◌<◌, ◌≤◌, IfOk, map, vec_len};
ghost use Rattle.std.specs.Int.{w128, int_wrap};
ghost use Rattle.dof_numbers.specs.Dofs.{IsNumberingOf, AreDofsOfCorners};
ghost use Rattle.lumped_mass.specs.Masses.{masses};

use crate::cells::Cells;
use crate::masses::Masses;
use dof_numbers::Dofs;
use fem_fixed::NoMemory;
use hanging_refine::Forest;
use ordered_pipeline::{Job, JobData, Turn, Worked, run_job};
use scratch_pool::OpenGate;
use std::alloc::Global;
use std::sync::Wait;
use std::thread::Threads;

impl Job for Cells<'_> {
    ghost use Rattle.std.specs.Prelude.{◌≡◌, length};
    ghost use Rattle.lumped_mass.specs.Masses.{cell_shares, cell_dofs};
    ghost use Rattle.lumped_mass.specs.Sums.{with_shares};
    ghost use Rattle.std.proofs.Common.{◌∙◌};
    ghost use Rattle.std.proofs.Math.ListN.{length-set};

    type Scratch = u8;

    type Copy = [i64; 4];

    type State = Masses;

    ghost count = { λ j. length j.forest.now.cells };

    ghost has_place = { λ j scratch. Unit {0} };

    ghost has_room = { λ j copy. Unit {0} };

    ghost fits = { λ j sums. length sums ≡ j.dofs.now.size };

    ghost stands = { λ j cell copy. copy ≡ cell_shares j.forest.now cell };

    ghost step = { λ j sums cell. with_shares (cell_dofs j.dofs.now cell) (cell_shares j.forest.now cell) sums 4 };

    ghost all_have_place = { λ j s. tt };

    ghost still_fits = { λ j sums cell fits. length-set _ _ _ ∙ length-set _ _ _ ∙ length-set _ _ _ ∙ length-set _ _ _ ∙ fits };

    fn items(&self) -> u64 {
        u64::from(self.count)
    }

    fn work(&self, turn: Turn, _scratch: &mut u8, copy: &mut [i64; 4]) -> Worked {
        *copy = self.shares(turn.item() as u32);
        turn.done()
    }

    fn copy(&self, item: u64, copy: &[i64; 4], state: &mut Masses) {
        let dofs = self.dofs_of(item as u32);
        for v in 0..4 {
            state.add(dofs[v], copy[v]);
        }
    }
}

/// The masses of all dofs by so many workers, 1 to 64: they make the shares of cells in parallel, and one cell after
/// another is added, in the order of the cells. It may wait for another thread.
pub fn masses_in_order<R: Threads + Wait + Sync>(
    rt: &R,
    alloc: Global,
    forest: &Forest,
    dofs: &Dofs,
    workers: u32,
) -> Result<Masses, NoMemory>
    requires degree { dofs.now.degree ≡ 1 }
    requires numbered { IsNumberingOf forest.now dofs.now }
    requires corners { AreDofsOfCorners forest.now dofs.now }
    requires workers { (0 < workers) × (workers ≤ 64) }
    ensures { IfOk result (λ list. list ≡ map (int_wrap w128) (masses forest.now dofs.now)) }
{
    let cells = Cells::new(forest, dofs);
    let given = JobData {
        copies: vec![in alloc; [0i64; 4]; 4 * workers as usize]?,
        scratches: vec![in alloc; 0u8; workers as usize]?,
        state: Masses::zero(alloc, dofs.size())?,
    };
    match run_job(rt, alloc, &cells, given, workers, &OpenGate) {
        Ok(JobData { state, .. }) => Ok(state),
        Err((_, fault)) => Err(fault),
    }
}
