ghost use Rattle.std.specs.Prelude.{◌≡◌};
ghost use Rattle.run_words.specs.Values.{system_mode_of, mode_of};
ghost use Rattle.run_words.specs.Words.{has_sums};

use crate::SystemMode;

/// What a word names as a mode.
#[derive(Clone, Copy)]
pub(crate) enum ModeName {
    /// A mode with texts of a system.
    System(SystemMode),
    /// `mesh`.
    Mesh,
    /// `product`.
    Product,
    /// `marks`.
    Marks,
    /// `adapt`.
    Adapt,
}

/// The mode that a word names.
#[tactic(auto, unfolding(crate::specs::Values::mode_of))]
pub(crate) fn mode_of(word: &str) -> Option<ModeName>
    ensures { result ≡ mode_of word.now }
{
    if word == "mesh" {
        return Some(ModeName::Mesh);
    }
    if word == "product" {
        return Some(ModeName::Product);
    }
    if word == "marks" {
        return Some(ModeName::Marks);
    }
    if word == "adapt" {
        return Some(ModeName::Adapt);
    }
    let mode = system_mode_of(word)?;
    Some(ModeName::System(mode))
}

#[tactic(auto, unfolding(crate::specs::Values::system_mode_of))]
fn system_mode_of(word: &str) -> Option<SystemMode>
    ensures { result ≡ system_mode_of word.now }
{
    if word == "serial" {
        return Some(SystemMode::Serial);
    }
    if word == "ordered" {
        return Some(SystemMode::Ordered);
    }
    if word == "colored" {
        return Some(SystemMode::Colored);
    }
    if word == "pattern" {
        return Some(SystemMode::Pattern);
    }
    if word == "colors" {
        return Some(SystemMode::Colors);
    }
    None
}

/// Whether the mode has sums, and so a right side and a summary.
pub(crate) fn has_sums(name: ModeName) -> bool
    ensures { result ≡ has_sums name }
{
    match name {
        ModeName::System(SystemMode::Serial | SystemMode::Ordered | SystemMode::Colored) => true,
        ModeName::System(SystemMode::Pattern | SystemMode::Colors) => false,
        ModeName::Mesh | ModeName::Product | ModeName::Marks => false,
        ModeName::Adapt => true,
    }
}
