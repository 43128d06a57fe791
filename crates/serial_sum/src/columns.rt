ghost use Rattle.std.specs.Prelude.{◌≡◌, true};
ghost use Rattle.serial_sum.specs.Columns.{IsRising, has_column, place};

/// Rows with at most this many columns are gone through one by one, which takes less than a search.
const FEW_COLUMNS: usize = 32;

/// The place of a column among those of a row.
#[inline(always)]
pub fn place_of(columns: &[u32], j: u32) -> usize
    requires rising { IsRising columns.now }
    requires held { has_column columns.now j ≡ true }
    ensures { result ≡ place columns.now j }
{
    if columns.len() <= FEW_COLUMNS {
        counted_place(columns, j)
    } else {
        searched_place(columns, j)
    }
}

/// The same, by counting the columns below it.
#[inline(always)]
fn counted_place(columns: &[u32], j: u32) -> usize
    requires rising { IsRising columns.now }
    requires held { has_column columns.now j ≡ true }
    ensures { result ≡ place columns.now j }
{
    for place in 0..columns.len() {
        if columns[place] >= j {
            return place;
        }
    }
    columns.len()
}

/// The same, by a binary search.
#[inline(never)]
fn searched_place(columns: &[u32], j: u32) -> usize
    requires rising { IsRising columns.now }
    requires held { has_column columns.now j ≡ true }
    ensures { result ≡ place columns.now j }
{
    match columns.binary_search(&j) {
        Ok(place) => place,
        Err(place) => place,
    }
}
