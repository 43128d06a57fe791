ghost use Rattle.std.specs.Prelude.{◌≡◌, ◌<◌, length, replicate, slice_set, Some, None, is_some, IfOk, OnOk, OnErr};
ghost use Rattle.affine_constraints.specs.Lines.{lines_in};
ghost use Rattle.affine_constraints.specs.Table.{line_at, place_in, IsPlace};

use crate::Term;
use crate::line::Line;
use fem_fixed::NoMemory;
use std::alloc::Global;
use std::marker::Model;

/// Where the terms of a line lie in the list of all terms, and its constant.
#[derive(Clone, Copy)]
pub struct Place {
    pub start: usize,
    pub end: usize,
    pub constant: i64,
}

/// At most one line for each dof, the terms of all lines in one list. Contracts see a table with the
/// line, if any, of each dof.
#[derive(Drop)]
pub struct Table {
    places: Vec<Option<Place>>,
    terms: Vec<Term>,
}

impl Model for Table {
    ghost use Rattle.std.specs.Prelude.{List};
    ghost use Rattle.std.specs.declared.option.Option.{Option};
    ghost use Rattle.affine_constraints.specs.Lines.{AffineLine};
    ghost use Rattle.affine_constraints.specs.Table.{table_of, ArePlaces};

    ghost Value = { List (Option AffineLine) };

    ghost view = { λ a. table_of a.places.items a.terms.items };

    ghost invariant = { λ a. ArePlaces a.places.items a.terms.items };
}

impl Table {
    /// No dof below the size has a line.
    pub fn new(alloc: Global, size: usize) -> Result<Table, NoMemory>
        ensures { IfOk result (λ made. made ≡ replicate size None) }
    {
        Ok(Table {
            places: no_places(alloc, size)?,
            terms: Vec::new(alloc),
        })
    }

    /// How many dofs have a place.
    pub fn len(&self) -> usize
        ensures { result ≡ length self.now }
    {
        self.places.len()
    }

    /// Whether a dof has a line.
    pub fn has(&self, dof: u32) -> bool
        requires { dof < length self.now }
        ensures { result ≡ is_some (lines_in self.now dof) }
    {
        has_place(&self.places, dof)
    }

    /// The line of a dof.
    pub fn line(&self, dof: u32) -> Option<Line<'_>>
        requires { dof < length self.now }
        ensures { result ≡ lines_in self.now dof }
    {
        match place_at(&self.places, dof) {
            None => None,
            Some(place) => Some(piece(&self.terms, place)),
        }
    }

    /// Puts the line of a dof. A refusal changes nothing.
    pub fn put(&mut self, dof: u32, terms: &[Term], constant: i64) -> Result<(), NoMemory>
        requires { dof < length self.old }
        ensures put { OnOk result (self.new ≡ slice_set self.old dof (Some (record { terms = terms.now; constant = constant }))) }
        ensures refused { OnErr result (self.new ≡ self.old) }
    {
        let start = self.terms.len();
        self.terms.extend_from_slice(terms)?;
        let end = self.terms.len();
        self.places[dof as usize] = Some(Place {
            start,
            end,
            constant,
        });
        Ok(())
    }
}

fn has_place(places: &[Option<Place>], dof: u32) -> bool
    requires { dof < length places.now }
    ensures { result ≡ is_some (place_in places.now dof) }
{
    places[dof as usize].is_some()
}

fn place_at(places: &[Option<Place>], dof: u32) -> Option<Place>
    requires { dof < length places.now }
    ensures { result ≡ place_in places.now dof }
{
    places[dof as usize]
}

/// The line at a place of the list of terms.
fn piece(terms: &[Term], place: Place) -> Line<'_>
    requires { IsPlace (length terms.now) place }
    ensures { result ≡ line_at terms.now place }
{
    Line::new(&terms[place.start..place.end], place.constant)
}

fn no_places(alloc: Global, size: usize) -> Result<Vec<Option<Place>>, NoMemory>
    ensures { IfOk result (λ places. places.items ≡ replicate size None) }
{
    let mut places = Vec::with_capacity(alloc, size)?;
    for count in 0..size {
        prove!(places.len() == count);
        places.push(None)?;
    }
    Ok(places)
}
