//! What one caller holds and knows.
use crate::job::RowJob;
use crate::steps::RowSeat;
use std::marker::Model;

/// One caller's right to claim items of a round. Contracts see it as its round, its number, what it is doing, and whether its
/// claimed item is written. It has no `Drop`: it goes back to its round by `close`.
pub struct RoundPass<J: RowJob> {
    pub(crate) seat: RowSeat<J>,
    pub(crate) written: bool,
    pub(crate) over: bool,
}

impl<J: RowJob> Model for RoundPass<J> {
    ghost use Rattle.colored_copier.specs.declared.rule.Key.{Key};
    ghost use Rattle.colored_copier.specs.Passes.{PassView, seen_as, Ties};
    ghost use Rattle.colored_copier.specs.Phases.{NotOver};
    ghost use Rattle.colored_copier.specs.Phases.{IsOver};
    ghost use Rattle.std.specs.Prelude.{MatchBool};

    ghost Value = { PassView (Key J J.Row) };

    ghost view = { λ p. seen_as p.seat.table_id p.seat.me.0 p.written };

    ghost invariant = { λ p. Ties J.rows_of J.row_step p.written p.seat.me × MatchBool p.over (IsOver p.seat.me.0.phase) (NotOver p.seat.me.0.phase) };
}

impl<J: RowJob> RoundPass<J> {
    ghost use Rattle.std.specs.Prelude.{◌≡◌, [], Some, true};
    ghost use Rattle.colored_copier.specs.declared.view.Phase.TheVariants as phase;
    ghost use Rattle.colored_copier.specs.declared.rule.Key.{Key};
    ghost use Rattle.colored_copier.specs.Phases.{Free};
    ghost use Rattle.colored_copier.specs.Rule.{view};
    ghost use Rattle.colored_copier.specs.Passes.{IsIdle};
    ghost use Rattle.colored_copier.specs.Phases.{NotOver};
    ghost use Rattle.colored_copier.specs.Phases.{IsOver};
    ghost use Rattle.std.specs.Prelude.{MatchBool};

    /// A pass that has claimed nothing.
    pub(crate) fn of(seat: RowSeat<J>) -> RoundPass<J>
        requires { (key : Key J J.Row) × (seat.me ≡ (view 1 0 seat.me.0.number phase.Fresh (Some key), [])) }
        ensures { (result.table ≡ seat.table_id) × (result.number ≡ seat.me.0.number) × (result.phase ≡ phase.Fresh) × (result.written ≡ true) × (result.key ≡ seat.me.0.key) }
    {
        RoundPass {
            seat,
            written: true,
            over: false,
        }
    }

    /// Its seat, which has no row.
    pub(crate) fn into_seat(self) -> RowSeat<J>
        requires { Free self.phase }
        ensures { (result.table_id ≡ self.table) × (result.me.1 ≡ []) × IsIdle self.phase result.me.0 }
    {
        let RoundPass {
            seat,
            written: _,
            over: _,
        } = self;
        seat
    }

    /// True once it found that all items are claimed.
    pub fn is_over(&self) -> bool
        ensures { MatchBool result (IsOver self.now.phase) (NotOver self.now.phase) }
    {
        self.over
    }
}
