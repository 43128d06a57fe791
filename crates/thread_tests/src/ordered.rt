//! The sum in the order of the cells, through the pipeline.
use crate::meshes::Mesh;
use crate::sums::{Way, goes_well, holds_item_zero, is_as_the_loop, tells};
use fixed_q1::LocalFault;
use mesh_loop::AssembleFault;

#[test]
fn the_rows_are_those_of_the_serial_sum(rt: HostRuntime) {
    for digits in [0, 24] {
        assert!(rt; is_as_the_loop(&rt, Way::Ordered, Mesh::Grid, digits));
        assert!(rt; is_as_the_loop(&rt, Way::Ordered, Mesh::Graded, digits));
    }
}

// The second, the third and the last cell fail.
#[test]
fn the_first_cell_that_fails_is_told(rt: HostRuntime) {
    let fault = AssembleFault::Local(1, LocalFault::Distorted);
    assert!(rt; tells(&rt, Way::Ordered, Mesh::Strip, fault));
}

#[test]
fn item_one_passes_while_item_zero_is_held(rt: HostRuntime) {
    assert!(rt; holds_item_zero(&rt, Way::Ordered));
}

#[test]
fn two_items_wait_for_each_other(rt: HostRuntime) {
    assert!(rt; goes_well(&rt, Way::Ordered, 2, &[(0, 1), (1, 0)]));
}

// Item 2 has no copy object before item 0 is added.
#[test]
fn a_place_is_free_once_its_item_is_added(rt: HostRuntime) {
    assert!(rt; goes_well(&rt, Way::Ordered, 2, &[(1, 2)]));
}

// Were three items dealt out to two hands beforehand, a hand would have two of them, and the first of these would
// wait for the second.
#[test]
fn one_item_of_three_waits_for_the_others(rt: HostRuntime) {
    assert!(rt; goes_well(&rt, Way::Ordered, 4, &[(0, 1), (0, 2)]));
    assert!(rt; goes_well(&rt, Way::Ordered, 4, &[(1, 0), (1, 2)]));
    assert!(rt; goes_well(&rt, Way::Ordered, 4, &[(2, 0), (2, 1)]));
}
