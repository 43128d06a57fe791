//! Laws of the form of a part of an interior face.
ghost use Rattle.std.specs.Prelude.{◌≡◌, ℤ, List, [], ◌∷◌};
ghost use Rattle.fem_fixed.specs.declared.mesh.Point.{Point};
ghost use Rattle.fixed_q1.specs.declared.geometry.Vector.{Vector};
ghost use Rattle.fixed_q2.specs.JumpForm.{jump_form, other_way};

/// The order of the two ends of a face doesn't matter: it changes the sign of the normal and of each jump,
/// and leaves the form.
pub fn normal_has_no_sign()
    ensures { (here there : List Point) (p q : Vector) (a b : Point) (gamma : ℤ) → jump_form here p there q (b ∷ a ∷ []) gamma ≡ jump_form here p there q (a ∷ b ∷ []) gamma }
{}

/// Seen from the other side of the part, the form is the same with the halves of the two cells exchanged.
pub fn sides_may_change_places()
    ensures { (here there : List Point) (p q : Vector) (ends : List Point) (gamma : ℤ) → jump_form there q here p ends gamma ≡ other_way (jump_form here p there q ends gamma) }
{}
