ghost use Rattle.std.specs.Prelude.{◌≡◌, ◌≤◌, ◌+◌, ◌++◌, length, map, take};
ghost use Rattle.cell_blocks.specs.Lending.{block_in};

/// The most dofs of a local system: nine of each of two cells.
pub const MOST_DOFS: usize = 18;

/// A local form over N dofs: a matrix and a load, in units of 2^-32.
#[derive(Clone, Copy)]
pub struct Form<const N: usize> {
    /// The matrix, by rows.
    pub matrix: [[i128; N]; N],
    pub load: [i128; N],
}

impl<const N: usize> Form<N> {
    /// A form of zeros.
    pub fn zero() -> Form<N> {
        Form {
            matrix: [[0; N]; N],
            load: [0; N],
        }
    }
}

/// A local system over some dofs: a matrix and a load, in units of 2^-32. There is room for the most dofs; the leading ones of
/// each array are used. A dof may stand twice.
#[derive(Clone, Copy)]
pub struct LocalSystem {
    /// How many dofs there are.
    pub used: usize,
    pub dofs: [u32; 18],
    /// The matrix, by rows.
    pub matrix: [[i128; 18]; 18],
    pub load: [i128; 18],
}

impl LocalSystem {
    /// A local system over no dofs.
    pub fn empty() -> LocalSystem
        ensures { result.used ≡ 0 }
    {
        LocalSystem {
            used: 0,
            dofs: [0; MOST_DOFS],
            matrix: [[0; MOST_DOFS]; MOST_DOFS],
            load: [0; MOST_DOFS],
        }
    }

    /// Holds this form over these dofs.
    pub fn hold<const N: usize>(&mut self, dofs: &[u32], form: &Form<N>)
        requires count { length dofs.now ≡ N }
        requires room { N ≤ 18 }
        ensures used { self.new.used ≡ N }
        ensures block { block_in self.new ≡ record { dofs = dofs.now; form = record { matrix = form.now.matrix; load = form.now.load } } }
        ensures rows { length form.now.matrix ≡ N }
        ensures load { length form.now.load ≡ N }
    {
        self.used = N;
        write_dofs(&mut self.dofs, 0, dofs);
        write_numbers(&mut self.load, &form.load);
        write_rows(&mut self.matrix, &form.matrix);
    }

    /// Holds this form over the dofs of two cells.
    pub fn hold_both<const N: usize>(&mut self, here: &[u32], there: &[u32], form: &Form<N>)
        requires count { length here.now + length there.now ≡ N }
        requires room { N ≤ 18 }
        ensures used { self.new.used ≡ N }
        ensures block { block_in self.new ≡ record { dofs = here.now ++ there.now; form = record { matrix = form.now.matrix; load = form.now.load } } }
        ensures rows { length form.now.matrix ≡ N }
        ensures load { length form.now.load ≡ N }
    {
        self.used = N;
        write_dofs(&mut self.dofs, 0, here);
        write_dofs(&mut self.dofs, here.len(), there);
        write_numbers(&mut self.load, &form.load);
        write_rows(&mut self.matrix, &form.matrix);
    }
}

/// Writes these dofs from a place on.
fn write_dofs(room: &mut [u32; 18], at: usize, dofs: &[u32])
    requires { at + length dofs.now ≤ 18 }
    ensures { take (at + length dofs.now) room.new ≡ take at room.old ++ dofs.now }
{
    for i in 0..dofs.len() {
        room[at + i] = dofs[i];
    }
}

/// Writes these numbers in front.
fn write_numbers(room: &mut [i128; 18], numbers: &[i128])
    requires { length numbers.now ≤ 18 }
    ensures { take (length numbers.now) room.new ≡ numbers.now }
{
    for i in 0..numbers.len() {
        room[i] = numbers[i];
    }
}

/// Writes these rows in front.
fn write_rows<const N: usize>(room: &mut [[i128; 18]; 18], rows: &[[i128; N]; N])
    requires { N ≤ 18 }
    ensures written { map (take N) (take N room.new) ≡ rows.now }
    ensures count { length rows.now ≡ N }
{
    for i in 0..N {
        write_numbers(&mut room[i], &rows[i]);
    }
}
