//! The masses of all dofs.
ghost use Rattle.std.specs.Prelude.{◌≡◌, ◌<◌, ◌+ℤ◌, ◌*ℤ◌, ℤ, pos, IfOk, length, replicate, slice_index_or};
ghost use Rattle.std.specs.Int.{w128, int_wrap};
ghost use Rattle.lumped_mass.specs.Masses.{integral as wanted};
ghost use Rattle.lumped_mass.specs.Sums.{with_share};

use fem_fixed::NoMemory;
use std::alloc::Global;
use std::marker::Model;

/// The masses of all dofs: the diagonal of the lumped mass matrix, four times, in square ticks. Contracts see a list.
#[derive(Drop)]
pub struct Masses {
    pub(crate) values: Vec<i128>,
}

impl Model for Masses {
    ghost use Rattle.std.specs.Prelude.{List, ℤ};

    ghost Value = { List ℤ };

    ghost view = { λ m. m.values.items };
}

impl Masses {
    /// The mass 0 for each dof.
    pub(crate) fn zero(alloc: Global, size: u32) -> Result<Masses, NoMemory>
        ensures { IfOk result (λ m. m ≡ replicate size (pos 0)) }
    {
        let values = vec![in alloc; 0; size as usize]?;
        Ok(Masses { values })
    }

    /// How many dofs there are.
    pub fn len(&self) -> usize
        ensures { result ≡ length self.now }
    {
        self.values.len()
    }

    /// Four times the mass of a dof, in square ticks.
    pub fn of_dof(&self, dof: u32) -> i128
        requires { dof < length self.now }
        ensures { result ≡ slice_index_or self.now dof (pos 0) }
    {
        self.values[dof as usize]
    }

    /// Four times the integral of the function with these values at the dofs, modulo 2^128: the integral itself, unless
    /// its size is 2^127 or more.
    pub fn integral(&self, values: &[i64]) -> i128
        requires { length values.now ≡ length self.now }
        ensures { result ≡ int_wrap w128 (wanted self.now values.now) }
    {
        let mut sum = 0i128;
        for dof in 0..values.len() {
            let value = i128::from(values[dof]);
            sum = wrapped_sum(sum, wrapped_product(self.values[dof], value));
        }
        sum
    }

    /// Adds a share to the mass of a dof.
    pub(crate) fn add(&mut self, dof: u32, share: i64)
        requires { dof < length self.old }
        ensures { self.new ≡ with_share self.old dof share }
    {
        self.values[dof as usize] = wrapped_sum(self.values[dof as usize], i128::from(share));
    }
}

/// A sum modulo 2^128.
pub(crate) fn wrapped_sum(a: i128, b: i128) -> i128
    ensures { result ≡ int_wrap w128 (a +ℤ b) }
{
    a.wrapping_add(b)
}

// A product modulo 2^128.
fn wrapped_product(a: i128, b: i128) -> i128
    ensures { result ≡ int_wrap w128 (a *ℤ b) }
{
    a.wrapping_mul(b)
}
