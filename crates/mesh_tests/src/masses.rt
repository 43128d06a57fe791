//! Lumped masses of two unit squares, the first of them divided.
ghost use Rattle.std.specs.Prelude.{◌≡◌, IfOk, IfSome};

use crate::meshes::{Mesh, refined};
use dof_numbers::Dofs;
use lumped_mass::{masses_by_color, masses_in_order};
use std::test::Fail;

/// A quarter of the area of a child, four times, in square ticks.
const QUARTER: i128 = 1_073_741_824;

/// The masses in quarters of a child's area, by dof: each child gives one to each of its corners, and the other square four.
const AWAITED: [i128; 11] = [1, 2, 2, 4, 5, 2, 1, 2, 5, 4, 4];

/// Twice the first coordinate of each dof, whose integral is that of 2 x over the squares, 4.
const DOUBLED: [i64; 11] = [0, 1, 0, 1, 2, 2, 0, 1, 2, 4, 4];

#[test]
fn masses_are_those_of_the_corners(rt: HostRuntime) -> Result<(), Fail> {
    let Some((forest, _)) = refined(rt.alloc(), Mesh::Strip, &[0]) else {
        return Err(Fail::from("no mesh"));
    };
    let Ok(dofs) = Dofs::number(rt.alloc(), &forest, 1) else {
        return Err(Fail::from("memory"));
    };
    let Ok(in_order) = masses_in_order(&rt, rt.alloc(), &forest, &dofs, 2) else {
        return Err(Fail::from("memory"));
    };
    let Ok(by_color) = masses_by_color(&rt, rt.alloc(), &forest, &dofs, 2) else {
        return Err(Fail::from("memory"));
    };
    assert_eq!(rt; in_order.len(), 11);
    assert_eq!(rt; by_color.len(), 11);
    for dof in 0..11 {
        assert_eq!(rt; in_order.of_dof(dof), AWAITED[dof as usize] * QUARTER);
        assert_eq!(rt; by_color.of_dof(dof), AWAITED[dof as usize] * QUARTER);
    }
    assert_eq!(rt; in_order.integral(&DOUBLED), 64 * QUARTER);
    Ok(())
}
