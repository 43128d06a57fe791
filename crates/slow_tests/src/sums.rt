use crate::slow_sum::{Full, slow_sum};
use crate::systems::drawn;
use mesh_loop::{Setup, assemble_serial};
use mesh_visits::Interior;
use sparsity::{Pattern, Rows};
use std::alloc::Global;
use std::thread::Threads;

/// Problems with steps of refinement, constraint lines with constants and chains of them, and boundary terms.
const PROBLEMS: [&str; 4] = [
    "diffusion 1 0.7\nsource 1 0.3\nsource 2 -1.5\nrobin 0 1 2\n",
    "diffusion 2 3\nsource 1 0.3\nrobin 0 0.5 -2\npenalty 0.1\nrefine 0\nrefine 1\nconstraint 1 = 0.5*3 + 0.25*4 + 1\n",
    "diffusion 3 0.001\nsource 3 2\nrobin 0 1 0\npenalty 2\nrefine 0\nconstraint 3 = -1.5*1 + 0.125\nconstraint 1 = 0.3*2 + 0.7*4 + -2\n",
    "source 1 1\nsource 4 7\ndirichlet 0 0.75\npenalty 0.01\nrefine 0\nrefine 0 2\n",
];

const INTERIORS: [Interior; 3] = [Interior::None, Interior::Once, Interior::Both];

/// The entry of a sum at a pair of dofs; 0 where the pattern has no such pair.
fn entry(pattern: &Pattern, rows: &Rows, i: u32, j: u32) -> Option<i128> {
    if i >= pattern.size() || i >= rows.size() {
        return None;
    }
    match pattern.place(i, j) {
        None => Some(0),
        Some(place) => {
            let values = &rows.get(i).values;
            if place < values.len() {
                Some(values.get(place))
            } else {
                None
            }
        }
    }
}

/// Whether a row of a sum is that of the slow one.
fn is_row(pattern: &Pattern, rows: &Rows, full: &Full, i: u32) -> bool {
    if i >= rows.size() || full.right_side(i) != Some(rows.get(i).rhs) {
        return false;
    }
    for j in 0..pattern.size() {
        let slow = full.entry(i, j);
        if slow.is_none() || slow != entry(pattern, rows, i, j) {
            return false;
        }
    }
    true
}

/// Whether all rows of a sum are those of the slow one.
fn are_rows(pattern: &Pattern, rows: &Rows, full: &Full) -> bool {
    for i in 0..pattern.size() {
        if !is_row(pattern, rows, full, i) {
            return false;
        }
    }
    rows.size() == pattern.size()
}

/// Whether the serial sum of a system is the slow one.
fn agree(alloc: Global, setup: &Setup, digits: u32) -> bool {
    if digits > 64 {
        return false;
    }
    match (
        assemble_serial(alloc, setup, digits),
        slow_sum(alloc, setup, digits),
    ) {
        (Ok(rows), Some(full)) => are_rows(setup.pattern(), &rows, &full),
        _ => false,
    }
}

/// Whether the sums of a drawn mesh under a problem agree, with all digits and with some, whatever faces are visited.
fn all_agree<R: Threads + Sync + AllocGlobal>(rt: &R, n: u32, seed: u64, problem: &str) -> bool {
    for interior in INTERIORS {
        match drawn(rt, n, seed, problem, interior) {
            Some(setup) => {
                if !agree(rt.alloc(), &setup, 0) || !agree(rt.alloc(), &setup, 24) {
                    return false;
                }
            }
            None => return false,
        }
    }
    true
}

#[test]
fn the_serial_sum_is_that_of_a_slow_program(rt: HostRuntime) {
    for (i, problem) in PROBLEMS.iter().enumerate() {
        for n in [1, 2, 3] {
            let seed = 10 * i as u64 + n as u64;
            assert!(rt; all_agree(&rt, n, seed, problem), "{n} by {n}, {problem}");
        }
    }
}
