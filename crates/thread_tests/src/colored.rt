//! The sum in the order of the colours.
use crate::meshes::Mesh;
use crate::sums::{
    Way, agrees_but_not_with_the_loop, goes_well, holds_item_zero, is_as_the_loop, serial_fault,
    tells,
};
use fixed_q1::LocalFault;
use mesh_loop::AssembleFault;

#[test]
fn with_all_digits_the_rows_are_those_of_the_serial_sum(rt: HostRuntime) {
    assert!(rt; is_as_the_loop(&rt, Way::Colored, Mesh::Grid, 0));
    assert!(rt; is_as_the_loop(&rt, Way::Colored, Mesh::Graded, 0));
}

// With some digits the order of the cells decides.
#[test]
fn with_some_digits_all_shapes_give_the_same_rows(rt: HostRuntime) {
    assert!(rt; agrees_but_not_with_the_loop(&rt, Way::Colored, Mesh::Graded, 24));
}

// The second, the third and the last cell fail; the first colour has the third and the last.
#[test]
fn the_first_cell_of_the_first_color_that_fails_is_told(rt: HostRuntime) {
    let first = AssembleFault::Local(1, LocalFault::Distorted);
    assert!(rt; serial_fault(&rt, Mesh::Strip) == Some(first));
    let fault = AssembleFault::Local(2, LocalFault::Distorted);
    assert!(rt; tells(&rt, Way::Colored, Mesh::Strip, fault));
}

#[test]
fn item_one_passes_while_item_zero_is_held(rt: HostRuntime) {
    assert!(rt; holds_item_zero(&rt, Way::Colored));
}

#[test]
fn two_items_wait_for_each_other(rt: HostRuntime) {
    assert!(rt; goes_well(&rt, Way::Colored, 1, &[(0, 1), (1, 0)]));
}

// Were three items dealt out to two hands beforehand, a hand would have two of them, and the first of these would
// wait for the second.
#[test]
fn one_item_of_three_waits_for_the_others(rt: HostRuntime) {
    assert!(rt; goes_well(&rt, Way::Colored, 1, &[(0, 1), (0, 2)]));
    assert!(rt; goes_well(&rt, Way::Colored, 1, &[(1, 0), (1, 2)]));
    assert!(rt; goes_well(&rt, Way::Colored, 1, &[(2, 0), (2, 1)]));
}
