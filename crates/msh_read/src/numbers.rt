ghost use Rattle.std.specs.Prelude.{◌≡◌, length};
ghost use Rattle.std.specs.Option.{option_map};
ghost use Rattle.fem_fixed.specs.Numbers.{id_of};
ghost use Rattle.fem_text.specs.Words.{all_of};
ghost use Rattle.msh_read.specs.Numbers.{with_number, kept_of};

use fem_fixed::read_id;
use fem_text::WordsLeft;

/// Of the ids behind the front of a row: how many there are, the first one, and the last four.
#[derive(Clone, Copy)]
pub(crate) struct Numbers {
    pub(crate) count: u64,
    pub(crate) first: u32,
    pub(crate) last: [u32; 4],
}

const NONE: Numbers = Numbers {
    count: 0,
    first: 0,
    last: [0; 4],
};

impl Numbers {
    // With one id more.
    fn with(&self, id: u32) -> Numbers
        requires { length self.now.last ≡ 4 }
        ensures { result ≡ with_number self.now id }
    {
        let last = &self.last;
        Numbers {
            count: self.count.saturating_add(1),
            first: if self.count == 0 { id } else { self.first },
            last: [last[1], last[2], last[3], id],
        }
    }
}

/// What is kept of the ids that these words are, where each is one.
pub(crate) fn read_numbers(words: &mut WordsLeft) -> Option<Numbers>
    ensures value { result ≡ option_map kept_of (all_of id_of words.old) }
{
    let mut numbers = NONE;
    while let Some(word) = words.next_word() {
        let id = read_id(word)?;
        numbers = numbers.with(id);
    }
    Some(numbers)
}
