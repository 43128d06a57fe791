//! The walk over the contributions of a block, spread over the masters of its dofs.
ghost use Rattle.std.specs.Prelude.{◌≡◌, ◌<◌, ◌≤◌, ◌^◌, ◌∷◌, [], true, All, length, map, unsigned_abs};
ghost use Rattle.std.specs.List.{flat_map};
ghost use Rattle.affine_constraints.specs.declared.term.Term.{Term as TermOf};
ghost use Rattle.affine_constraints.specs.Lines.{lines_in};
ghost use Rattle.serial_sum.specs.declared.part.Target.TheVariants.{Column};
ghost use Rattle.block_sums.specs.Contributions.{to, constant_terms, column_terms, master_terms, own_terms, row_terms, contributions};
ghost use Rattle.block_sums.specs.Shares.{entry_share as share_of_entry};
ghost use Rattle.block_sums.specs.SmallLines.{IsWeight};
ghost use Rattle.block_sums.specs.Adding.{Adds};

use crate::shares::{UNIT_WEIGHT, constant_share, entry_share, load_share};
use affine_constraints::{Closed, Term};
use cell_blocks::Block;
use serial_sum::{Adder, Contribution, Target};

/// Adds the contributions of a block, one after another, as the adder adds them. What has been told so far comes in and
/// goes out, so that the blocks of a cell are added one by one.
pub fn add_block<A: Adder>(
    adder: &A,
    closed: &Closed,
    block: &Block,
    sum: &mut A::Sum,
    told: A::Told,
) -> A::Told
    requires dofs { All (λ dof. dof < length closed.now) block.now.dofs }
    requires fits { A.fits adder.now sum.old }
    requires given { All (A.may_add adder.now) (contributions (lines_in closed.now) block.now) }
    ensures { Adds (A.fits adder.now) (A.step adder.now) (sum.old, told) (sum.new, result) (contributions (lines_in closed.now) block.now) }
{
    let mut told = told;
    for i in 0..block.dofs().len() {
        told = add_row(adder, closed, block, i, sum, told);
    }
    told
}

/// Adds the contributions of a local row.
#[inline(always)]
fn add_row<A: Adder>(
    adder: &A,
    closed: &Closed,
    block: &Block,
    i: usize,
    sum: &mut A::Sum,
    told: A::Told,
) -> A::Told
    requires dofs { All (λ dof. dof < length closed.now) block.now.dofs }
    requires i { i < length block.now.dofs }
    requires fits { A.fits adder.now sum.old }
    requires given { All (A.may_add adder.now) (row_terms (lines_in closed.now) block.now i) }
    ensures { Adds (A.fits adder.now) (A.step adder.now) (sum.old, told) (sum.new, result) (row_terms (lines_in closed.now) block.now i) }
{
    let dof = block.dof(i);
    match closed.line(dof) {
        None => {
            let itself = Term {
                dof,
                weight: UNIT_WEIGHT,
            };
            add_wanted_master(adder, closed, block, i, itself, sum, told)
        }
        Some((terms, constant)) => {
            let told = add_masters(adder, closed, block, i, terms, sum, told);
            add_wanted_own(adder, dof, block.entry(i, i), constant, sum, told)
        }
    }
}

/// Adds a local row on these masters.
#[inline(never)]
fn add_masters<A: Adder>(
    adder: &A,
    closed: &Closed,
    block: &Block,
    i: usize,
    terms: &[Term],
    sum: &mut A::Sum,
    told: A::Told,
) -> A::Told
    requires dofs { All (λ dof. dof < length closed.now) block.now.dofs }
    requires i { i < length block.now.dofs }
    requires weights { All IsWeight terms.now }
    requires fits { A.fits adder.now sum.old }
    requires given { All (A.may_add adder.now) (flat_map (master_terms (lines_in closed.now) block.now i) terms.now) }
    ensures { Adds (A.fits adder.now) (A.step adder.now) (sum.old, told) (sum.new, result) (flat_map (master_terms (lines_in closed.now) block.now i) terms.now) }
{
    let mut told = told;
    for master in terms {
        told = add_wanted_master(adder, closed, block, i, *master, sum, told);
    }
    told
}

/// Adds a local row on one of its masters where that row is wanted; no product is formed where it isn't.
#[inline(always)]
fn add_wanted_master<A: Adder>(
    adder: &A,
    closed: &Closed,
    block: &Block,
    i: usize,
    master: Term,
    sum: &mut A::Sum,
    told: A::Told,
) -> A::Told
    requires dofs { All (λ dof. dof < length closed.now) block.now.dofs }
    requires i { i < length block.now.dofs }
    requires weight { unsigned_abs master.weight ≤ 2 ^ 20 }
    requires fits { A.fits adder.now sum.old }
    requires given { All (A.may_add adder.now) (master_terms (lines_in closed.now) block.now i master) }
    ensures { Adds (A.fits adder.now) (A.step adder.now) (sum.old, told) (sum.new, result) (master_terms (lines_in closed.now) block.now i master) }
{
    if !adder.wants(master.dof) {
        return told;
    }
    add_master(adder, closed, block, i, master, sum, told)
}

/// Adds a local row on one of its masters.
fn add_master<A: Adder>(
    adder: &A,
    closed: &Closed,
    block: &Block,
    i: usize,
    master: Term,
    sum: &mut A::Sum,
    told: A::Told,
) -> A::Told
    requires dofs { All (λ dof. dof < length closed.now) block.now.dofs }
    requires i { i < length block.now.dofs }
    requires weight { unsigned_abs master.weight ≤ 2 ^ 20 }
    requires wanted { A.wanted adder.now master.dof ≡ true }
    requires fits { A.fits adder.now sum.old }
    requires given { All (A.may_add adder.now) (master_terms (lines_in closed.now) block.now i master) }
    ensures { Adds (A.fits adder.now) (A.step adder.now) (sum.old, told) (sum.new, result) (master_terms (lines_in closed.now) block.now i master) }
{
    let load = Contribution {
        row: master.dof,
        target: Target::RightSide,
        value: load_share(master.weight, block.load_at(i)),
    };
    let mut told = put(adder, load, sum, told);
    for j in 0..block.dofs().len() {
        told = add_column(
            adder,
            closed,
            master,
            block.entry(i, j),
            block.dof(j),
            sum,
            told,
        );
    }
    told
}

/// Adds what belongs to a constrained dof's own row where that row is wanted.
#[inline(always)]
fn add_wanted_own<A: Adder>(
    adder: &A,
    dof: u32,
    diagonal: i128,
    constant: i64,
    sum: &mut A::Sum,
    told: A::Told,
) -> A::Told
    requires diagonal { unsigned_abs diagonal ≤ 2 ^ 72 }
    requires constant { unsigned_abs constant ≤ 2 ^ 31 }
    requires fits { A.fits adder.now sum.old }
    requires given { All (A.may_add adder.now) (own_terms dof (unsigned_abs diagonal) constant) }
    ensures { Adds (A.fits adder.now) (A.step adder.now) (sum.old, told) (sum.new, result) (own_terms dof (unsigned_abs diagonal) constant) }
{
    if !adder.wants(dof) {
        return told;
    }
    add_own(adder, dof, diagonal, constant, sum, told)
}

/// Adds the size of a local diagonal entry to the diagonal of a constrained dof, and what belongs to it to the
/// right side.
#[inline(never)]
fn add_own<A: Adder>(
    adder: &A,
    dof: u32,
    diagonal: i128,
    constant: i64,
    sum: &mut A::Sum,
    told: A::Told,
) -> A::Told
    requires diagonal { unsigned_abs diagonal ≤ 2 ^ 72 }
    requires constant { unsigned_abs constant ≤ 2 ^ 31 }
    requires wanted { A.wanted adder.now dof ≡ true }
    requires fits { A.fits adder.now sum.old }
    requires given { All (A.may_add adder.now) (own_terms dof (unsigned_abs diagonal) constant) }
    ensures { Adds (A.fits adder.now) (A.step adder.now) (sum.old, told) (sum.new, result) (own_terms dof (unsigned_abs diagonal) constant) }
{
    let size = diagonal.unsigned_abs() as i128;
    let own = Contribution {
        row: dof,
        target: Target::Column(dof),
        value: size,
    };
    let told = put(adder, own, sum, told);
    let side = Contribution {
        row: dof,
        target: Target::RightSide,
        value: load_share(constant, size),
    };
    put(adder, side, sum, told)
}

/// Adds a contribution to a row that is wanted.
#[inline(always)]
fn put<A: Adder>(adder: &A, given: Contribution, sum: &mut A::Sum, told: A::Told) -> A::Told
    requires wanted { A.wanted adder.now given.row ≡ true }
    requires fits { A.fits adder.now sum.old }
    requires given { A.may_add adder.now given }
    ensures { Adds (A.fits adder.now) (A.step adder.now) (sum.old, told) (sum.new, result) (given ∷ []) }
{
    adder.add(sum, told, given)
}

/// Adds a local entry on one master of its row, spread over the masters of its column's dof.
#[inline(always)]
fn add_column<A: Adder>(
    adder: &A,
    closed: &Closed,
    master: Term,
    entry: i128,
    dof: u32,
    sum: &mut A::Sum,
    told: A::Told,
) -> A::Told
    requires weight { unsigned_abs master.weight ≤ 2 ^ 20 }
    requires entry { unsigned_abs entry ≤ 2 ^ 72 }
    requires dof { dof < length closed.now }
    requires wanted { A.wanted adder.now master.dof ≡ true }
    requires fits { A.fits adder.now sum.old }
    requires given { All (A.may_add adder.now) (column_terms (lines_in closed.now) master entry dof) }
    ensures { Adds (A.fits adder.now) (A.step adder.now) (sum.old, told) (sum.new, result) (column_terms (lines_in closed.now) master entry dof) }
{
    match closed.line(dof) {
        None => {
            let given = Contribution {
                row: master.dof,
                target: Target::Column(dof),
                value: entry_share(master.weight, entry, UNIT_WEIGHT),
            };
            put(adder, given, sum, told)
        }
        Some((terms, constant)) => {
            let told = add_terms(adder, master, entry, terms, sum, told);
            add_constant(adder, master, entry, constant, sum, told)
        }
    }
}

/// Adds a local entry on one master of its row and on these masters of its column's dof.
#[inline(never)]
fn add_terms<A: Adder>(
    adder: &A,
    master: Term,
    entry: i128,
    terms: &[Term],
    sum: &mut A::Sum,
    told: A::Told,
) -> A::Told
    requires weight { unsigned_abs master.weight ≤ 2 ^ 20 }
    requires entry { unsigned_abs entry ≤ 2 ^ 72 }
    requires weights { All IsWeight terms.now }
    requires wanted { A.wanted adder.now master.dof ≡ true }
    requires fits { A.fits adder.now sum.old }
    requires given { All (A.may_add adder.now) (map (λ (other : TermOf). to master.dof (Column other.dof) (share_of_entry master.weight entry other.weight)) terms.now) }
    ensures { Adds (A.fits adder.now) (A.step adder.now) (sum.old, told) (sum.new, result) (map (λ (other : TermOf). to master.dof (Column other.dof) (share_of_entry master.weight entry other.weight)) terms.now) }
{
    let mut told = told;
    for other in terms {
        let given = Contribution {
            row: master.dof,
            target: Target::Column(other.dof),
            value: entry_share(master.weight, entry, other.weight),
        };
        told = put(adder, given, sum, told);
    }
    told
}

/// Adds what the constant of a column's dof gives to the right side of a row.
#[inline(never)]
fn add_constant<A: Adder>(
    adder: &A,
    master: Term,
    entry: i128,
    constant: i64,
    sum: &mut A::Sum,
    told: A::Told,
) -> A::Told
    requires weight { unsigned_abs master.weight ≤ 2 ^ 20 }
    requires entry { unsigned_abs entry ≤ 2 ^ 72 }
    requires constant { unsigned_abs constant ≤ 2 ^ 31 }
    requires wanted { A.wanted adder.now master.dof ≡ true }
    requires fits { A.fits adder.now sum.old }
    requires given { All (A.may_add adder.now) (constant_terms master.dof master.weight entry constant) }
    ensures { Adds (A.fits adder.now) (A.step adder.now) (sum.old, told) (sum.new, result) (constant_terms master.dof master.weight entry constant) }
{
    if constant == 0 {
        return told;
    }
    let given = Contribution {
        row: master.dof,
        target: Target::RightSide,
        value: constant_share(master.weight, entry, constant),
    };
    put(adder, given, sum, told)
}
