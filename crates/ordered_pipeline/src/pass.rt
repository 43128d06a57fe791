//! What one caller holds and knows, and the calls on it.
ghost use Rattle.std.specs.Prelude.{◌≡◌, ◌<◌, ◌≤◌, ◌+◌, ℕ, [], None, Some, true, false, IsSome, IsSomeAnd};
ghost use Rattle.ordered_pipeline.specs.declared.view.Phase.TheVariants as phase;
ghost use Rattle.ordered_pipeline.specs.Fold.{fold};
ghost use Rattle.ordered_pipeline.specs.Answers.{Drew, Looked, Handing, Going};
ghost use Rattle.std.specs.Borrow.{Lends, sem};

use crate::job::Job;
use crate::steps::{Line, Me};
use crate::turn::{Turn, Worked};
use std::marker::Model;

/// What a draw found: an item, or the counter's number past the last item.
#[derive(Drop)]
pub enum Drawn {
    Item(u64),
    Over(u64),
}

/// What a look found: the item starts, or so many items are copied, and it is too far ahead.
pub enum Start {
    Go(Turn),
    NotYet(u64),
}

/// What a finish found: another pass copies the item, or this one does.
#[derive(Drop)]
pub enum Handed {
    Left,
    Baton,
}

/// Whether the pass copies the next item too.
#[derive(Drop)]
pub enum Next {
    Again,
    Left,
}

/// What one caller holds of a pipeline: the number of the item that it drew, and a copy object from the start of the item until
/// it is handed on.
pub struct Pass<J: Job> {
    seat: Me<J>,
    copy: Option<J::Copy>,
    over: bool,
    item: u64,
    looks: u64,
}

impl<J: Job> Model for Pass<J> {
    ghost use Rattle.ordered_pipeline.specs.declared.rule.Key.{Key};
    ghost use Rattle.ordered_pipeline.specs.Passes.{PassView, seen_as, Ties};

    ghost Value = { PassView J.Copy (Key J J.State) };

    ghost view = { λ p. seen_as p.seat.table_id p.seat.me.0 p.copy p.over };

    ghost invariant = { λ p. Ties J.has_room J.stands J.step p.copy p.over p.item p.looks p.seat.me };
}

impl<J: Job> Pass<J> {
    ghost use Rattle.std.specs.Prelude.{◌≡◌, [], Some, None, true, false};
    ghost use Rattle.ordered_pipeline.specs.declared.view.Phase.TheVariants.{Idle};
    ghost use Rattle.ordered_pipeline.specs.declared.rule.Key.{Key};
    ghost use Rattle.ordered_pipeline.specs.Machine.{view};
    ghost use Rattle.ordered_pipeline.specs.Machine.{known};
    ghost use Rattle.ordered_pipeline.specs.Passes.{with_copy, over_of};
    ghost use Rattle.ordered_pipeline.specs.Fresh.{fresh};
    ghost use Rattle.ordered_pipeline.specs.contracts.pass.Pass.{the_row};

    pub(crate) fn of(seat: Me<J>) -> Pass<J>
        requires { (key : Key J J.State) × (seat.me ≡ (view 1 0 seat.me.0.number Idle 0 0 0 (known key), [])) }
        ensures { (key : Key J J.State) → seat.me.0.key ≡ known key → result ≡ fresh seat.table_id key seat.me.0.number }
    {
        Pass {
            seat,
            copy: None,
            over: false,
            item: 0,
            looks: 0,
        }
    }

    pub(crate) fn into_seat(self) -> Me<J>
        requires { self.phase ≡ Idle }
        ensures { (result.table_id ≡ self.table) × (result.me.1 ≡ []) × (result.me.0.parts ≡ 1) × (result.me.0.phase ≡ Idle) × (result.me.0.drawn ≡ self.drawn) × (result.me.0.overs ≡ over_of self.over) }
    {
        let Pass {
            seat,
            copy,
            over: _,
            item: _,
            looks: _,
        } = self;
        match copy {
            None => {}
            Some(_copy) => unreachable!(),
        }
        seat
    }

    /// The copy object of the item that it has started.
    pub fn copy_object(&mut self) -> &mut J::Copy
        requires { IsSome self.old.copy }
        ensures value { self.old.copy ≡ Some result.now }
        ensures* writes_back { sem 𝓛 (Lends (the_row J.row J.Scratch.row J.Copy.row J.State.row ⟦<J as Job>⟧) J.Copy.row self.entry result (with_copy self.old)) }
    {
        match &mut self.copy {
            Some(copy) => copy,
            None => unreachable!(),
        }
    }

    /// How often it looked and its item was too far ahead.
    pub fn looks(&self) -> u64
        ensures { result ≡ self.now.looks }
    {
        self.looks
    }

    /// True where it drew past the last item.
    pub fn is_over(&self) -> bool
        ensures { result ≡ self.now.over }
    {
        self.over
    }
}

fn put<T>(place: &mut Option<T>, value: T)
    requires { place.old ≡ None }
    ensures { place.new ≡ Some value }
{
    match std::mem::replace(place, Some(value)) {
        None => {}
        Some(_) => unreachable!(),
    }
}

impl<J: Job> Line<J> {
    ghost use Rattle.ordered_pipeline.specs.Lines.{line_table, line_key, line_queue, line_items};
    ghost use Rattle.ordered_pipeline.specs.Passes.{IsPassOf, IsSame};

    pub(crate) fn draw_item(&self, pass: &mut Pass<J>) -> Drawn
        requires pass { IsPassOf (line_table self.now) (line_key self.now) pass.old }
        requires idle { (pass.old.phase ≡ phase.Idle) × (pass.old.over ≡ false) }
        ensures { Drew (line_items self.now) pass.old pass.new result }
    {
        let n = self.draw(&mut pass.seat);
        if n >= self.items {
            pass.over = true;
            return Drawn::Over(n);
        }
        pass.item = n;
        Drawn::Item(n)
    }

    pub(crate) fn start_item(&self, pass: &mut Pass<J>) -> Start
        requires pass { IsPassOf (line_table self.now) (line_key self.now) pass.old }
        requires drawn { (n : ℕ) × (pass.old.phase ≡ phase.Drawn n) }
        ensures { Looked (J.has_room (line_key self.now).job.value) (line_queue self.now) pass.old pass.new result }
    {
        let n = pass.item;
        match self.try_start(&mut pass.seat, n) {
            Ok(copy) => {
                put(&mut pass.copy, copy);
                Start::Go(Turn::of(n))
            }
            Err(c) => {
                pass.looks = pass.looks.saturating_add(1);
                Start::NotYet(c)
            }
        }
    }

    pub(crate) fn finish_item(&self, pass: &mut Pass<J>, worked: Worked) -> Handed
        requires pass { IsPassOf (line_table self.now) (line_key self.now) pass.old }
        requires worked { (pass.old.phase ≡ phase.Started worked) × IsSomeAnd pass.old.copy (λ x. J.has_room (line_key self.now).job.value x × J.stands (line_key self.now).job.value worked x) }
        ensures { Handing worked pass.old pass.new result }
    {
        let n = worked.item();
        worked.spend();
        let Some(copy) = pass.copy.take() else {
            unreachable!()
        };
        if !self.finish(&mut pass.seat, n, copy) {
            return Handed::Left;
        }
        Handed::Baton
    }

    pub(crate) fn copy_item(&self, pass: &mut Pass<J>, job: &J) -> Next
        requires pass { IsPassOf (line_table self.now) (line_key self.now) pass.old }
        requires baton { (n : ℕ) × (pass.old.phase ≡ phase.Baton n) }
        requires job { (job.now ≡ (line_key self.now).job.value) × (J.count job.now ≡ (line_key self.now).items) }
        requires fits { (n : ℕ) → n < J.count job.now → J.fits job.now (fold J.step job.now (line_key self.now).state.value n) }
        ensures { (n : ℕ) → pass.old.phase ≡ phase.Baton n → Going (line_items self.now) n pass.old pass.new result }
    {
        let n = pass.item;
        if !self.copy_next(&mut pass.seat, job, n) {
            return Next::Left;
        }
        pass.item = n + 1;
        Next::Again
    }
}
