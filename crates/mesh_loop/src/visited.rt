ghost use Rattle.std.specs.Prelude.{◌≡◌, ◌<◌, ℕ, length, map, IfOk};
ghost use Rattle.cell_blocks.specs.Blocks.{cell_subdomain, subdomains_of};
ghost use Rattle.mesh_visits.specs.Runs.{subdomain_in, visits_of};
ghost use Rattle.mesh_visits.specs.Within.{IsFit};
ghost use Rattle.mesh_loop.specs.Setup.{cells_of, cell_visits};
ghost use Rattle.mesh_loop.specs.Parts.{shown};

use crate::source::Source;
use compressed_lists::Lists;
use fem_fixed::NoMemory;
use mesh_visits::{Visit, make_visits};
use std::alloc::Global;

/// The visits of each cell, in one pass over the cells, and one more where the flags name a subdomain.
pub fn visits_by_cell(alloc: Global, source: &Source) -> Result<Lists<Visit>, NoMemory>
    ensures visits { IfOk result (λ lists. lists ≡ map (cell_visits (shown source.now)) (cells_of (shown source.now))) }
    ensures fit { IfOk result (λ lists. (cell : ℕ) → cell < length (shown source.now).given.forest.cells → IsFit (shown source.now).given.forest 9 4 8 (cell_visits (shown source.now) cell)) }
{
    let subdomains = subdomains_to_read(alloc, source)?;
    let visits = make_visits(alloc, source.setting.forest, source.flags, &subdomains)?;
    Ok(visits)
}

/// The subdomain of each cell, where the flags name one; where they don't, no list is made.
fn subdomains_to_read(alloc: Global, source: &Source) -> Result<Vec<u32>, NoMemory>
    ensures { IfOk result (λ list. (cell : ℕ) → visits_of (subdomain_in list.items) (shown source.now).flags (shown source.now).given.forest cell ≡ cell_visits (shown source.now) cell) }
{
    match source.flags.own {
        None => Ok(Vec::new(alloc)),
        Some(_) => {
            let list = subdomains_by_cell(alloc, source)?;
            Ok(list)
        }
    }
}

/// The subdomain of each cell.
#[tactic(auto, unfolding(cell_blocks::specs::Blocks::subdomains_of))]
fn subdomains_by_cell(alloc: Global, source: &Source) -> Result<Vec<u32>, NoMemory>
    ensures { IfOk result (λ list. list.items ≡ subdomains_of (shown source.now).given) }
{
    let mut list = Vec::new(alloc);
    for cell in 0..source.setting.forest.cells() {
        let subdomain = subdomain_of(source, cell);
        list.push(subdomain)?;
    }
    Ok(list)
}

/// The subdomain of a cell, which is that of its material.
fn subdomain_of(source: &Source, cell: u32) -> u32
    requires { cell < length (shown source.now).given.forest.cells }
    ensures { result ≡ cell_subdomain (shown source.now).given cell }
{
    let material = source.setting.forest.material(cell);
    source.setting.problem.subdomain(material)
}
