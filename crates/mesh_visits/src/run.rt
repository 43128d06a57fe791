ghost use Rattle.std.specs.Prelude.{◌≡◌};
ghost use Rattle.mesh_visits.specs.Runs.{is_lower, goes_once, goes_inside, goes_out, goes_to_cell};
ghost use Rattle.mesh_visits.specs.Steps.{subdomain_by, has_own, chooses};

use crate::{Flags, Interior, Visit};
use fixed_q1::Part;

/// A run: its flags, and the subdomain of each active cell by number.
#[derive(Clone, Copy)]
pub(crate) struct Run<'a> {
    pub(crate) flags: Flags,
    pub(crate) subdomains: &'a [u32],
}

/// The subdomain of a cell.
fn subdomain_of(run: &Run, cell: u32) -> u32
    ensures { result ≡ subdomain_by run.now cell }
{
    let place = cell as usize;
    if place < run.subdomains.len() {
        run.subdomains[place]
    } else {
        0
    }
}

/// Whether a cell is own.
pub(crate) fn is_own(run: &Run, cell: u32) -> bool
    ensures { result ≡ has_own run.now cell }
{
    match run.flags.own {
        None => true,
        Some(named) => subdomain_of(run, cell) == named,
    }
}

/// Whether the flags choose a visit of an own cell.
pub(crate) fn is_chosen(run: &Run, cell: u32, visit: Visit) -> bool
    ensures { result ≡ chooses run.now cell visit }
{
    match visit {
        Visit::Cell => run.flags.cells,
        Visit::Boundary { .. } => run.flags.boundary,
        Visit::Interior {
            other,
            here,
            there,
            ..
        } => is_part_chosen(run, cell, other, here, there),
    }
}

/// Whether they choose a part of a face of an own cell.
fn is_part_chosen(run: &Run, cell: u32, other: u32, here: Part, there: Part) -> bool
    ensures { result ≡ goes_to_cell (subdomain_by run.now) run.now.flags cell other here there }
{
    if is_own(run, other) {
        is_inside(run.flags.interior, cell, other, here, there)
    } else {
        is_out(
            run.flags.ghost_parts,
            run.flags.own,
            subdomain_of(run, other),
        )
    }
}

/// Whether a part between own cells is visited from the first.
fn is_inside(interior: Interior, cell: u32, other: u32, here: Part, there: Part) -> bool
    ensures { result ≡ goes_inside interior cell other here there }
{
    match interior {
        Interior::None => false,
        Interior::Once => is_first(cell, other, here, there),
        Interior::Both => true,
    }
}

fn is_first(cell: u32, other: u32, here: Part, there: Part) -> bool
    ensures { result ≡ goes_once cell other here there }
{
    match (here, there) {
        (Part::Whole, Part::Whole) => cell < other,
        (Part::Whole, Part::Half0 | Part::Half1) => true,
        (Part::Half0 | Part::Half1, _) => false,
    }
}

/// Whether a part between an own cell and a ghost of this subdomain is visited.
fn is_out(ghost_parts: Interior, own: Option<u32>, subdomain: u32) -> bool
    ensures { result ≡ goes_out ghost_parts own subdomain }
{
    match ghost_parts {
        Interior::None => false,
        Interior::Once => is_lower(own, subdomain),
        Interior::Both => true,
    }
}

fn is_lower(own: Option<u32>, subdomain: u32) -> bool
    ensures { result ≡ is_lower own subdomain }
{
    match own {
        None => false,
        Some(named) => named < subdomain,
    }
}
