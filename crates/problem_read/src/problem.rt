ghost use Rattle.std.specs.Prelude.{◌≡◌, ◌<◌, ◌≤◌, ◌^◌, [], length, slice_index_or, unsigned_abs, IfSome};
ghost use Rattle.problem_read.specs.LookUps.{diffusion_on, source_on, robin_on, dirichlet_on, penalty_in, subdomain_on};
ghost use Rattle.problem_read.specs.Limits.{IsTieWithin, AreWithinLimits};
ghost use Rattle.problem_read.specs.Ties.{IsTie};

use crate::TieTerm;
use crate::tables::Tables;
use std::marker::Model;

/// What a problem text says. Values are in ticks of 2^-16, and at most 2^31 of them in size.
#[derive(Drop)]
pub struct Problem {
    tables: Tables,
}

impl Model for Problem {
    ghost use Rattle.problem_read.specs.Entries.{ProblemParts};
    ghost use Rattle.problem_read.specs.Limits.{AreWithinLimits};

    ghost Value = { ProblemParts };

    ghost view = { λ problem. problem.tables };

    ghost invariant = { λ problem. AreWithinLimits problem.tables };
}

impl Problem {
    pub(crate) fn new(tables: Tables) -> Self
        requires { AreWithinLimits tables }
        ensures { result ≡ tables }
    {
        Problem { tables }
    }

    /// The diffusion on a material, in ticks; 65,536, which is one, where no line has it.
    pub fn diffusion(&self, material: u32) -> i64
        ensures value { result ≡ diffusion_on self.now material }
        ensures small { unsigned_abs result ≤ 2 ^ 31 }
    {
        self.tables.diffusion(material)
    }

    /// The source on a material, in ticks; 0 where no line has it.
    pub fn source(&self, material: u32) -> i64
        ensures value { result ≡ source_on self.now material }
        ensures small { unsigned_abs result ≤ 2 ^ 31 }
    {
        self.tables.source(material)
    }

    /// Alpha and the data of `alpha u` on a boundary id, in ticks, where a line has it.
    pub fn robin(&self, id: u32) -> Option<(i64, i64)>
        ensures value { result ≡ robin_on self.now id }
        ensures small { IfSome result (λ values. (unsigned_abs values.0 ≤ 2 ^ 31) × (unsigned_abs values.1 ≤ 2 ^ 31)) }
    {
        self.tables.robin(id)
    }

    /// The value on a boundary id, in ticks, where a line has it.
    pub fn dirichlet(&self, id: u32) -> Option<i64>
        ensures value { result ≡ dirichlet_on self.now id }
        ensures small { IfSome result (λ value. unsigned_abs value ≤ 2 ^ 31) }
    {
        self.tables.dirichlet(id)
    }

    /// The weight of the jump term, in ticks; 0 where no line has it.
    pub fn penalty(&self) -> i64
        ensures value { result ≡ penalty_in self.now }
        ensures small { unsigned_abs result ≤ 2 ^ 31 }
    {
        self.tables.penalty()
    }

    /// The id of the subdomain that a material belongs to; 0 where no line has it.
    pub fn subdomain(&self, material: u32) -> u32
        ensures { result ≡ subdomain_on self.now material }
    {
        self.tables.subdomain(material)
    }

    /// The number of refinement steps, at most 32.
    pub fn steps(&self) -> u32
        ensures value { result ≡ length self.now.steps }
        ensures few { result ≤ 32 }
    {
        self.tables.steps()
    }

    /// The numbers of active cells that a step asks for, in the order of the line.
    pub fn asked(&self, step: u32) -> &[u32]
        requires { step < length self.now.steps }
        ensures { result.now ≡ slice_index_or self.now.steps step [] }
    {
        self.tables.asked(step)
    }

    /// The number of constraints, at most 1,048,576.
    pub fn ties(&self) -> u32
        ensures value { result ≡ length self.now.ties }
        ensures few { result ≤ 2 ^ 20 }
    {
        self.tables.ties()
    }

    /// Constraint number k, counted from 0: the node that it is for, its terms in the order of the line, and its
    /// constant in ticks. There are at most 16 terms, each of a weight of at most 2^20 ticks. Node ids are those
    /// of the mesh text.
    pub fn tie(&self, k: u32) -> (u32, &[TieTerm], i64)
        requires { k < length self.now.ties }
        ensures value { IsTie self.now.ties k result.0 result.1.now result.2 }
        ensures within { IsTieWithin result.1.now result.2 }
    {
        self.tables.tie(k)
    }
}
