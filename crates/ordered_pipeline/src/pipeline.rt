//! The pipeline: what callers see of it.
ghost use Rattle.std.specs.Prelude.{Some, ◌≡◌, ◌<◌, ◌≤◌, ◌^◌, ◌+◌, ℕ, All, Any, List, [], ◌++◌, ◌∷◌, true, false, map, reverse, length, vec_len, IfOk, IfErr, IsSomeAnd};
ghost use Rattle.std.specs.Vec.{vec_capacity};
ghost use Rattle.std.specs.Slots.{slots_items, slots_len, IsFull};
ghost use mathlib.Core.Option.{some};
ghost use lib.ListN.{get_elem?};
ghost use Rattle.ordered_pipeline.specs.declared.view.Phase.TheVariants as phase;
ghost use Rattle.ordered_pipeline.specs.declared.view.Cargo.TheVariants as cargo;
ghost use Rattle.ordered_pipeline.specs.Fold.{fold};
ghost use Rattle.ordered_pipeline.specs.Machine.{known, view};
ghost use Rattle.ordered_pipeline.specs.Fresh.{AreFresh, fresh_passes};
ghost use Rattle.ordered_pipeline.specs.Lines.{line_table, line_key};
ghost use Rattle.ordered_pipeline.specs.Rule.{first_view};
ghost use Rattle.ordered_pipeline.specs.Passes.{IsPassOf};
ghost use Rattle.ordered_pipeline.specs.Answers.{Drew, Looked, Handing, Going};

use crate::job::Job;
use crate::pass::{Drawn, Handed, Next, Pass, Start};
use crate::rule::Key;
use crate::slots::{Taken, first_words, unpack, wrap_all};
use crate::steps::{Line, Me};
use crate::turn::Worked;
use crate::view::Cargo;
use fem_fixed::NoMemory;
use scratch_pool::Parked;
use std::alloc::Global;
use std::marker::Model;
use std::snapshot::Snapshot;

/// Items are drawn in order, worked by many passes, and copied one after another in their order, by whichever pass
/// finishes the item whose turn it is. Contracts see which pipeline it is, with its job, the state at first, and
/// the numbers of items, copy objects and passes.
pub struct Pipeline<J: Job> {
    line: Line<J>,
    room: Parked<Vec<J::Copy>>,
}

impl<J: Job> Model for Pipeline<J> {
    ghost use Rattle.std.specs.Prelude.{◌≡◌, ◌≤◌, vec_len};
    ghost use Rattle.std.specs.Vec.{vec_capacity};
    ghost use Rattle.ordered_pipeline.specs.Lines.{line_table, line_key, line_queue};
    ghost use Rattle.ordered_pipeline.specs.Views.{PipelineView, seen_pipeline, Sound};
    ghost use Rattle.ordered_pipeline.specs.declared.rule.Key.{Key};

    ghost Value = { PipelineView (Key J J.State) };

    ghost view = { λ p. seen_pipeline (line_table p.line) (line_key p.line) };

    ghost invariant = { λ p. Sound J.count J.fits (line_key p.line) × (vec_len p.room ≡ 0) × (line_queue p.line ≤ vec_capacity p.room) };
}

impl<J: Job> Pipeline<J> {
    /// Draws the next item, by one step. `Over(n)` where the counter stood at n, at least the number of items; then the
    /// pass is over.
    pub fn draw(&self, pass: &mut Pass<J>) -> Drawn
        requires pass { IsPassOf self.now.table self.now.key pass.old }
        requires idle { (pass.old.phase ≡ phase.Idle) × (pass.old.over ≡ false) }
        ensures found { Drew (J.count self.now.key.job.value) pass.old pass.new result }
        ensures few { J.count self.now.key.job.value ≤ 2 ^ 32 }
    {
        self.line.draw_item(pass)
    }

    /// Looks once at how many items are copied, and starts the item that the pass has drawn where it is less than a
    /// queue ahead: then the pass has the copy object of the item's place. Else its looks rise.
    pub fn try_start(&self, pass: &mut Pass<J>) -> Start
        requires pass { IsPassOf self.now.table self.now.key pass.old }
        requires drawn { (n : ℕ) × (pass.old.phase ≡ phase.Drawn n) }
        ensures found { Looked (J.has_room self.now.key.job.value) self.now.key.queue pass.old pass.new result }
    {
        self.line.start_item(pass)
    }

    /// Leaves the worked item for the pass with the baton, or takes the baton where it rests at this item, by one swap.
    pub fn finish(&self, pass: &mut Pass<J>, worked: Worked) -> Handed
        requires pass { IsPassOf self.now.table self.now.key pass.old }
        requires worked { (pass.old.phase ≡ phase.Started worked) × IsSomeAnd pass.old.copy (λ x. J.has_room self.now.key.job.value x × J.stands self.now.key.job.value worked x) }
        ensures found { Handing worked pass.old pass.new result }
    {
        self.line.finish_item(pass, worked)
    }

    /// Copies the baton's item, advances the copied count, and passes the baton on to the next item. `Left` where that
    /// item isn't finished: then the baton rests there.
    pub fn copy_next(&self, pass: &mut Pass<J>, job: &J) -> Next
        requires pass { IsPassOf self.now.table self.now.key pass.old }
        requires baton { (n : ℕ) × (pass.old.phase ≡ phase.Baton n) }
        requires job { job.now ≡ self.now.key.job.value }
        ensures found { (n : ℕ) → pass.old.phase ≡ phase.Baton n → Going (J.count job.now) n pass.old pass.new result }
    {
        self.line.copy_item(pass, job)
    }
}

/// What a closed pipeline gives back: the copy objects, the state, and how many items were copied.
pub struct Ended<J: Job> {
    pub copies: Vec<J::Copy>,
    pub state: J::State,
    pub copied: u64,
}

/// What a pipeline is made of: its table, the room for its copy objects at the end, and the seat that its
/// passes are split from.
struct Made<J: Job> {
    line: Line<J>,
    room: Parked<Vec<J::Copy>>,
    seat: Me<J>,
}

// Splits the passes off, in the order of their numbers.
fn deal<J: Job>(line: &Line<J>, seats: u32, mut seat: Me<J>, passes: &mut Vec<Pass<J>>)
    requires seat { (seat.table_id ≡ line_table line.now) × (seat.me ≡ (view seats 0 0 phase.Idle 0 0 0 (known (line_key line.now)), [])) }
    requires room { (passes.old.items ≡ []) × (seats ≤ vec_capacity passes.old) }
    ensures passes { passes.new.items ≡ fresh_passes (line_table line.now) (line_key line.now) seats }
    ensures fresh { (vec_len passes.new ≡ seats) × AreFresh (line_table line.now) (line_key line.now) passes.new.items }
{
    for number in 0..seats {
        let next = line.split(&mut seat);
        passes.push_reserved(Pass::of(next));
    }
}

// Moves the copy objects and the state to their places, and keeps the vector that the copy objects came in.
fn lay_out<J: Job>(
    alloc: Global,
    key: Key<J, J::State>,
    mut copies: Vec<J::Copy>,
    state: J::State,
) -> Result<Made<J>, (Vec<J::Copy>, J::State)>
    requires copies { (0 < vec_len copies) × (vec_len copies ≤ 256) × All (J.has_room key.job.value) copies.items }
    requires key { (key.queue ≡ vec_len copies) × (key.state.value ≡ state) × (key.items ≤ 2 ^ 32) × (0 < key.seats) × (key.seats ≤ 64) }
    ensures line { IfOk result (λ made. (line_key made.line ≡ key) × (made.seat.table_id ≡ line_table made.line) × (made.seat.me ≡ (first_view key, []))) }
    ensures room { IfOk result (λ made. (vec_len made.room ≡ 0) × (key.queue ≤ vec_capacity made.room)) }
    ensures err { IfErr result (λ e. (e.0.items ≡ copies.items) × (e.1 ≡ state)) }
{
    let queue = copies.len();
    let Ok(words) = first_words(alloc, queue) else {
        return Err((copies, state));
    };
    let Ok(mut slots) = Vec::with_capacity(alloc, queue + 1) else {
        return Err((copies, state));
    };
    wrap_all(&mut copies, &mut slots);
    slots.push_reserved(Cargo::State(state));
    let room = match Parked::new(alloc, copies) {
        Ok(room) => room,
        Err(copies) => return Err(unpack(slots, copies)),
    };
    match Line::new(alloc, words.as_slice(), slots, key) {
        Ok((line, seat)) => Ok(Made { line, room, seat }),
        Err(slots) => Err(unpack(slots, room.take())),
    }
}

impl<J: Job> Pipeline<J> {
    ghost use Rattle.ordered_pipeline.specs.Ending.{AreIdle, greatest};

    /// Takes 1 to 256 copy objects and a state, and gives as many passes as there are seats, in the order of
    /// their numbers. The queue length is the number of copy objects. Where there is no memory it hands all back.
    pub fn new(
        alloc: Global,
        job: &J,
        copies: Vec<J::Copy>,
        state: J::State,
        seats: u32,
    ) -> Result<(Pipeline<J>, Vec<Pass<J>>), (Vec<J::Copy>, J::State, NoMemory)>
        requires copies { (0 < vec_len copies) × (vec_len copies ≤ 256) × All (J.has_room job.now) copies.items }
        requires state { J.fits job.now state }
        requires seats { (0 < seats) × (seats ≤ 64) }
        requires few { J.count job.now ≤ 2 ^ 32 }
        ensures key { IfOk result (λ r. (r.0.key.job.value ≡ job.now) × (r.0.key.state.value ≡ state) × (r.0.key.queue ≡ vec_len copies) × (r.0.key.seats ≡ seats)) }
        ensures passes { IfOk result (λ r. r.1.items ≡ fresh_passes r.0.table r.0.key seats) }
        ensures fresh { IfOk result (λ r. (vec_len r.1 ≡ seats) × AreFresh r.0.table r.0.key r.1.items) }
        ensures err { IfErr result (λ e. (e.0.items ≡ copies.items) × (e.1 ≡ state)) }
    {
        let Ok(mut passes) = Vec::with_capacity(alloc, seats as usize) else {
            return Err((copies, state, NoMemory));
        };
        let key = Key {
            job: Snapshot::of(job),
            state: Snapshot::of(&state),
            items: job.items(),
            queue: copies.len() as u64,
            seats: seats as u64,
        };
        match lay_out(alloc, key, copies, state) {
            Ok(Made { line, room, seat }) => {
                deal(&line, seats, seat, &mut passes);
                Ok((Pipeline { line, room }, passes))
            }
            Err((copies, state)) => {
                passes.destroy_empty();
                Err((copies, state, NoMemory))
            }
        }
    }

    /// Gives the copy objects back, in the vector that `new` took, and the state, and tells how many items were copied:
    /// all that were drawn. It takes all passes, none of which may have an item or the baton. It takes no memory.
    pub fn close(self, mut passes: Vec<Pass<J>>) -> Ended<J>
        requires idle { AreIdle self.table passes.items }
        requires all { vec_len passes ≡ self.key.seats }
        ensures copied { result.copied ≡ greatest passes.items }
        ensures over { Any (λ p. p.over ≡ true) passes.items → result.copied ≡ J.count self.key.job.value }
        ensures state { result.state ≡ fold J.step self.key.job.value self.key.state.value result.copied }
        ensures copies { (vec_len result.copies ≡ self.key.queue) × All (J.has_room self.key.job.value) result.copies.items }
    {
        let Pipeline { line, room } = self;
        let Some(first) = passes.pop() else {
            unreachable!()
        };
        let mut seat = first.into_seat();
        while let Some(pass) = passes.pop() {
            line.join(&mut seat, pass.into_seat());
        }
        passes.destroy_empty();
        let Taken {
            copies,
            state,
            copied,
        } = line.end(seat, room.take());
        Ended {
            copies,
            state,
            copied,
        }
    }
}
