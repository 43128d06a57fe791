//! The sum of a system by the definition of its contributions: each is added by itself, in their order, to a full matrix.
use affine_constraints::Closed;
use cell_blocks::Block;
use fem_fixed::{add_kept, rdiv};
use mesh_loop::{CellCopy, CellScratch, Setup};
use std::alloc::Global;

/// A weight of one, in ticks.
const ONE: i64 = 65536;

/// A full matrix and a right side, in units of 2^-32, with this many leading binary digits kept of each sum.
#[derive(Drop)]
pub(crate) struct Full {
    size: u32,
    digits: u32,
    values: Vec<i128>,
    rhs: Vec<i128>,
}

/// A dof and its weight, in ticks.
#[derive(Clone, Copy)]
struct Master {
    dof: u32,
    weight: i64,
}

impl Full {
    /// Zeros.
    fn zero(alloc: Global, size: u32, digits: u32) -> Option<Full> {
        if size > 1000 || digits > 64 {
            return None;
        }
        let count = size as usize;
        Some(Full {
            size,
            digits,
            values: vec![in alloc; 0; count * count].ok()?,
            rhs: vec![in alloc; 0; count].ok()?,
        })
    }

    /// The place of a pair.
    fn place(&self, i: u32, j: u32) -> Option<usize> {
        if j >= self.size {
            return None;
        }
        (i as usize)
            .checked_mul(self.size as usize)?
            .checked_add(j as usize)
    }

    /// An entry of the matrix.
    pub(crate) fn entry(&self, i: u32, j: u32) -> Option<i128> {
        self.values.get(self.place(i, j)?).copied()
    }

    /// An entry of the right side.
    pub(crate) fn right_side(&self, i: u32) -> Option<i128> {
        self.rhs.get(i as usize).copied()
    }

    /// Adds to an entry of the matrix.
    fn add(&mut self, i: u32, j: u32, value: i128) -> Option<()> {
        let place = self.place(i, j)?;
        let digits = self.digits;
        let entry = self.values.get_mut(place)?;
        *entry = sum_of(*entry, value, digits)?;
        Some(())
    }

    /// Adds to an entry of the right side.
    fn add_right(&mut self, i: u32, value: i128) -> Option<()> {
        let digits = self.digits;
        let entry = self.rhs.get_mut(i as usize)?;
        *entry = sum_of(*entry, value, digits)?;
        Some(())
    }
}

/// An entry and a value, where both and their sum are within the limits.
fn sum_of(entry: i128, value: i128, digits: u32) -> Option<i128> {
    let most = 1u128 << 80;
    if entry.unsigned_abs() > most || value.unsigned_abs() > most || digits > 64 {
        return None;
    }
    add_kept(entry, value, digits)
}

/// The nearest whole number to a product of three, divided by 2^32.
fn share(a: i64, b: i128, c: i64) -> Option<i128> {
    let product = (a as i128).checked_mul(b)?.checked_mul(c as i128)?;
    Some(rdiv(product, 1 << 32))
}

/// The masters of a dof with its constant, in ticks: those of its closed line, or itself and 0 where it is free.
#[derive(Drop)]
struct Masters {
    terms: Vec<Master>,
    constant: i64,
    is_free: bool,
}

fn masters_of(alloc: Global, closed: &Closed, dof: u32) -> Option<Masters> {
    if dof as usize >= closed.size() {
        return None;
    }
    let mut terms = Vec::new(alloc);
    match closed.line(dof) {
        None => {
            terms.push(Master { dof, weight: ONE }).ok()?;
            Some(Masters {
                terms,
                constant: 0,
                is_free: true,
            })
        }
        Some((line, constant)) => {
            for term in line {
                let master = Master {
                    dof: term.dof,
                    weight: term.weight,
                };
                terms.push(master).ok()?;
            }
            Some(Masters {
                terms,
                constant,
                is_free: false,
            })
        }
    }
}

/// Adds an entry of a block on a master of its row: to the columns of the masters of its column, and by the constant of
/// its column to the right side.
fn add_entry(
    full: &mut Full,
    alloc: Global,
    closed: &Closed,
    master: Master,
    entry: i128,
    column: u32,
) -> Option<()> {
    let Masters {
        terms,
        constant,
        ..
    } = masters_of(alloc, closed, column)?;
    for other in terms.iter() {
        full.add(
            master.dof,
            other.dof,
            share(master.weight, entry, other.weight)?,
        )?;
    }
    if constant == 0 {
        return Some(());
    }
    let moved = share(master.weight, entry.checked_neg()?, constant)?;
    full.add_right(master.dof, moved)
}

/// Adds a row of a block on one of its masters: its load, and then its entries.
fn add_master(
    full: &mut Full,
    alloc: Global,
    closed: &Closed,
    block: &Block,
    i: usize,
    master: Master,
) -> Option<()> {
    let load = share(master.weight, block.load().get(i).copied()?, ONE)?;
    full.add_right(master.dof, load)?;
    for (j, column) in block.dofs().iter().enumerate() {
        let entry = block.row(i).get(j).copied()?;
        add_entry(full, alloc, closed, master, entry, *column)?;
    }
    Some(())
}

/// Adds a row of a block on all its masters. The row of a constrained dof gets the size of its diagonal.
fn add_row(
    full: &mut Full,
    alloc: Global,
    closed: &Closed,
    block: &Block,
    i: usize,
    dof: u32,
) -> Option<()> {
    let Masters {
        terms,
        constant,
        is_free,
    } = masters_of(alloc, closed, dof)?;
    for master in terms.iter() {
        add_master(full, alloc, closed, block, i, *master)?;
    }
    if is_free {
        return Some(());
    }
    let size = block.row(i).get(i).copied()?.checked_abs()?;
    full.add(dof, dof, size)?;
    full.add_right(dof, share(constant, size, ONE)?)
}

/// Adds a block, row after row.
fn add_block(full: &mut Full, alloc: Global, closed: &Closed, block: &Block) -> Option<()> {
    for (i, dof) in block.dofs().iter().enumerate() {
        add_row(full, alloc, closed, block, i, *dof)?;
    }
    Some(())
}

/// Adds the blocks of a cell, where none has a fault.
fn add_cell(full: &mut Full, alloc: Global, setup: &Setup, copy: &CellCopy) -> Option<()> {
    if copy.fault().is_some() {
        return None;
    }
    for k in 0..copy.blocks() {
        add_block(full, alloc, setup.closed(), &copy.block(k))?;
    }
    Some(())
}

/// The sum of all cells in their order, where no local form and no sum fails.
pub(crate) fn slow_sum(alloc: Global, setup: &Setup, digits: u32) -> Option<Full> {
    let mut full = Full::zero(alloc, setup.pattern().size(), digits)?;
    let mut copy = CellCopy::new(alloc).ok()?;
    let mut scratch = CellScratch::new();
    for cell in 0..setup.cells() {
        setup.blocks_of(cell, &mut scratch, &mut copy);
        add_cell(&mut full, alloc, setup, &copy)?;
    }
    Some(full)
}
