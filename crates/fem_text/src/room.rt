ghost use Rattle.std.specs.Prelude.{◌≡◌, ◌≤◌, ◌++◌, length, vec_capacity};

use itoa::{Buffer, Integer};

/// Adds bytes for which there is room.
pub fn append(text: &mut Vec<u8>, bytes: &[u8])
    requires { length (text.old.items ++ bytes.now) ≤ vec_capacity text.old }
    ensures items { text.new.items ≡ text.old.items ++ bytes.now }
    ensures room { vec_capacity text.old ≤ vec_capacity text.new }
{
    let _ = text.extend_from_slice(bytes);
}

/// Adds a number and what stands behind it, for which there is room.
pub fn append_number<I: Integer>(text: &mut Vec<u8>, number: I, behind: &[u8])
    requires { length (text.old.items ++ (I.text number ++ behind.now)) ≤ vec_capacity text.old }
    ensures items { text.new.items ≡ text.old.items ++ (I.text number ++ behind.now) }
    ensures room { vec_capacity text.old ≤ vec_capacity text.new }
{
    let mut buffer = Buffer::new();
    append(text, buffer.format(number).as_bytes());
    append(text, behind);
}
