ghost use Rattle.std.specs.Prelude.{Bool, List};
ghost use Rattle.fem_fixed.specs.Lists.{IsEquality, IsNumbering};

/// Elements of any type, numbered as they come: by how many different ones stand before the first
/// occurrence. The numbers are below the count of different elements, and no two elements have one.
pub fn numbers_as_they_come<T>()
    ensures { (same : T → T → Bool) → IsEquality same → (list : List T) → IsNumbering same list }
{}
