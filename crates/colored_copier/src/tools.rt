//! What the workers of all rounds work with, beside the objects of the pool, and how it becomes hands on one round.
ghost use Rattle.std.specs.Prelude.{◌≡◌, ◌≤◌, [], All, Any, vec_len};
ghost use Rattle.std.specs.Vec.{vec_capacity};
ghost use Rattle.colored_copier.specs.Crews.{IsFreshPass, AreHome, AreOut};
ghost use Rattle.colored_copier.specs.Ending.{AreDone};
ghost use Rattle.colored_copier.specs.Hands.{IsReady, IsFinished};
ghost use Rattle.colored_copier.specs.Phases.{IsOver};

use crate::driver::ColorHand;
use crate::job::RowJob;
use crate::pass::RoundPass;
use crate::round::Round;
use scratch_pool::{Pool, PoolPass};

/// A pass of the pool and a copy object for each worker. In a round they are out with the hands.
#[derive(Drop)]
pub struct Tools<S, C> {
    pub seats: Vec<PoolPass<S>>,
    pub copies: Vec<C>,
}

/// Gives each worker a pass of the round, a pass of the pool and a copy object.
pub(crate) fn hand_out<J: RowJob>(
    round: &Round<J>,
    job: &J,
    pool: &Pool<J::Scratch>,
    tools: &mut Tools<J::Scratch, J::Copy>,
    passes: &mut Vec<RoundPass<J>>,
    hands: &mut Vec<ColorHand<J>>,
)
    requires home { AreHome (vec_len passes.old) pool.now.table tools.old }
    requires copies { All (J.has_room job.now) tools.old.copies.items }
    requires passes { All (IsFreshPass round.now) passes.old.items }
    requires room { (hands.old.items ≡ []) × (vec_len passes.old ≤ vec_capacity hands.old) }
    ensures ready { All (λ hand. IsReady round.now pool.now.table hand.pass hand.scratch × J.has_room job.now hand.copy) hands.new.items }
    ensures count { vec_len hands.new ≡ vec_len passes.old }
    ensures passes { (passes.new.items ≡ []) × (vec_capacity passes.new ≡ vec_capacity passes.old) }
    ensures out { AreOut (vec_len passes.old) tools.new }
{
    while let Some(pass) = passes.pop() {
        let Some(scratch) = tools.seats.pop() else {
            unreachable!()
        };
        let Some(copy) = tools.copies.pop() else {
            unreachable!()
        };
        hands.push_reserved(ColorHand {
            pass,
            scratch,
            copy,
        });
    }
}

/// Takes the passes of the round back, and those of the pool and the copy objects home.
pub(crate) fn take_back<J: RowJob>(
    round: &Round<J>,
    job: &J,
    pool: &Pool<J::Scratch>,
    tools: &mut Tools<J::Scratch, J::Copy>,
    hands: &mut Vec<ColorHand<J>>,
    passes: &mut Vec<RoundPass<J>>,
)
    requires out { AreOut (vec_len hands.old) tools.old }
    requires finished { All (λ hand. IsFinished round.now pool.now.table hand.pass hand.scratch × J.has_room job.now hand.copy) hands.old.items }
    requires over { Any (λ hand. IsOver hand.pass.phase) hands.old.items }
    requires room { (passes.old.items ≡ []) × (vec_len hands.old ≤ vec_capacity passes.old) }
    ensures done { AreDone round.now.table passes.new.items }
    ensures over { Any (λ pass. IsOver pass.phase) passes.new.items }
    ensures count { vec_len passes.new ≡ vec_len hands.old }
    ensures hands { hands.new.items ≡ [] }
    ensures home { AreHome (vec_len hands.old) pool.now.table tools.new }
    ensures copies { All (J.has_room job.now) tools.new.copies.items }
{
    while let Some(hand) = hands.pop() {
        let ColorHand {
            pass,
            scratch,
            copy,
        } = hand;
        passes.push_reserved(pass);
        tools.seats.push_reserved(scratch);
        tools.copies.push_reserved(copy);
    }
}
