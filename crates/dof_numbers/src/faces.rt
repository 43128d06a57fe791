ghost use Rattle.std.specs.Prelude.{◌≡◌, ◌<◌, ◌==◌, cond};
ghost use Rattle.corner_names.specs.Cells.{face_start, face_end};

/// The vertex at which a face starts.
pub fn start_of(face: u8) -> usize
    requires { face < 4 }
    ensures value { result ≡ face_start face }
    ensures small { result < 4 }
{
    match face {
        1 => 1,
        3 => 2,
        _ => 0,
    }
}

/// The vertex at which a face ends.
pub fn end_of(face: u8) -> usize
    requires { face < 4 }
    ensures value { result ≡ face_end face }
    ensures small { result < 4 }
{
    match face {
        0 => 2,
        2 => 1,
        _ => 3,
    }
}

/// The one of two numbers that isn't the third.
pub fn other(first: u32, second: u32, third: u32) -> u32
    ensures { result ≡ cond (first == third) second first }
{
    if first == third {
        return second;
    }
    first
}
