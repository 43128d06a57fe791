ghost use Rattle.std.specs.Prelude.{◌≡◌, ◌<◌, false, length, slice_index, position};
ghost use Rattle.std.specs.List.{before_first, after_first};
ghost use Rattle.fem_text.specs.Lines.{is_blank, words_of};

// Whether a byte parts words.
fn is_blank(byte: u8) -> bool
    ensures { result ≡ is_blank byte }
{
    byte == b' ' || byte == b'\t'
}

// The place of the first blank.
fn blank_place(text: &[u8]) -> Option<usize>
    ensures { result ≡ position is_blank text.now }
{
    text.iter().position(|byte| is_blank(*byte))
}

/// What stands before the first blank, and what follows it.
pub(crate) fn split_at_blank(text: &[u8]) -> (&[u8], &[u8])
    ensures front { result.0.now ≡ before_first is_blank text.now }
    ensures back { result.1.now ≡ after_first is_blank text.now }
{
    match blank_place(text) {
        Some(place) => (&text[..place], &text[place + 1..]),
        None => (text, &text[text.len()..]),
    }
}

/// Without the blanks at the front.
pub(crate) fn without_blanks(line: &[u8]) -> &[u8]
    ensures words { words_of result.now ≡ words_of line.now }
    ensures front { 0 < length result.now → is_blank (slice_index result.now 0) ≡ false }
{
    let mut left = line;
    while let [first, rest @ ..] = left {
        if !is_blank(*first) {
            return left;
        }
        left = rest;
    }
    left
}
