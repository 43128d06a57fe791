ghost use Rattle.std.specs.Prelude.{◌≡◌};

use affine_constraints::Closed;
use cell_blocks::Setting;
use mesh_visits::Flags;

/// What a set-up is made from.
#[derive(Drop)]
pub struct Source<'a> {
    pub setting: Setting<'a>,
    pub closed: &'a Closed,
    pub flags: Flags,
}

impl<'a> Source<'a> {
    /// A source of these parts.
    pub fn new(setting: Setting<'a>, closed: &'a Closed, flags: Flags) -> Source<'a>
        ensures setting { result.setting ≡ setting.entry }
        ensures closed { result.closed.now ≡ closed.now }
        ensures flags { result.flags ≡ flags }
    {
        Source {
            setting,
            closed,
            flags,
        }
    }
}
