ghost use Rattle.std.specs.Prelude.{◌≡◌, ◌≢◌, ◌+◌, ◌<◌, ◌≤◌, ◌^◌, length, take, ◌-◌, None, IfOk, OnErr, [], ◌++◌};
ghost use Rattle.corner_names.specs.Names.{middle_of, centre, root};
ghost use Rattle.corner_names.specs.Table.{first, number_of, name_of, name_made, centre_below, IsCentre, IsKey, IsTable, IsNumbered, IsMore, AddsAtMostOne, AreOneEach};

use fem_fixed::NoMemory;
use std::alloc::Global;
use std::collections::BTreeMap;
use std::marker::Model;

const FIRST: u32 = 1048576;

/// How many pairs there is room for.
const ROOM: usize = 2147483648;

/// The numbers of middles and centres. A number below 2^20 is a node's; contracts see the pairs of
/// numbers that the numbers from 2^20 on stand for.
#[derive(Drop)]
pub struct CornerTable {
    pairs: Vec<(u32, u32)>,
    numbers: BTreeMap<(u32, u32), u32>,
}

impl Model for CornerTable {
    ghost use Rattle.std.specs.Prelude.{ℕ, List};
    ghost use Rattle.corner_names.specs.Table.{IsTable};

    ghost Value = { List (ℕ × ℕ) };

    ghost view = { λ a. a.pairs.items };

    ghost invariant = { λ a. IsTable a.pairs.items a.numbers };
}

impl CornerTable {
    /// The table in which only nodes have numbers.
    pub fn new(alloc: Global) -> CornerTable
        ensures empty { result ≡ [] }
        ensures one { AreOneEach result }
    {
        CornerTable {
            pairs: Vec::new(alloc),
            numbers: BTreeMap::new(alloc),
        }
    }

    /// How many middles and centres have numbers.
    pub fn len(&self) -> usize
        ensures { result ≡ length self.now }
    {
        self.pairs.len()
    }

    /// Takes back all but the first `count` numbers of middles and centres.
    pub fn truncate(&mut self, count: usize)
        requires { count ≤ length self.old }
        ensures kept { self.new ≡ take count self.old }
        ensures one { AreOneEach self.new }
    {
        shorten(&mut self.pairs, &mut self.numbers, count);
    }

    /// The number of the middle of two corners. A name that has no number yet gets the next one.
    ///
    /// # Errors
    ///
    /// Memory ran out, or 2^31 names have numbers. Nothing is changed then.
    pub fn middle(&mut self, a: u32, b: u32) -> Result<u32, NoMemory>
        requires apart { a ≢ b }
        requires a { a < first + length self.old }
        requires b { b < first + length self.old }
        ensures ok { IfOk result (λ n. IsNumbered self.old self.new (middle_of (name_of self.old a) (name_of self.old b)) n) }
        ensures next { IfOk result (λ n. AddsAtMostOne self.old self.new n) }
        ensures more { IsMore self.old self.new }
        ensures one { AreOneEach self.new }
        ensures same { OnErr result (self.new ≡ self.old) }
    {
        if a < b {
            find_or_add(&mut self.pairs, &mut self.numbers, a, b)
        } else {
            find_or_add(&mut self.pairs, &mut self.numbers, b, a)
        }
    }

    /// The number of the centre of a coarse cell. A name that has no number yet gets the next one.
    ///
    /// # Errors
    ///
    /// As of [`CornerTable::middle`]. Nothing is changed then.
    pub fn coarse_centre(&mut self, cell: u32) -> Result<u32, NoMemory>
        ensures ok { IfOk result (λ n. IsNumbered self.old self.new (centre (root cell)) n) }
        ensures next { IfOk result (λ n. AddsAtMostOne self.old self.new n) }
        ensures more { IsMore self.old self.new }
        ensures one { AreOneEach self.new }
        ensures same { OnErr result (self.new ≡ self.old) }
    {
        find_or_add(&mut self.pairs, &mut self.numbers, cell, cell)
    }

    /// The number of the centre of a child, by the number of the centre of the cell above. A name that has
    /// no number yet gets the next one.
    ///
    /// # Errors
    ///
    /// As of [`CornerTable::middle`]. Nothing is changed then.
    pub fn child_centre(&mut self, above: u32, child: u32) -> Result<u32, NoMemory>
        requires above { first ≤ above }
        requires known { above < first + length self.old }
        requires centre { IsCentre (name_of self.old above) }
        requires child { child < 4 }
        ensures ok { IfOk result (λ n. IsNumbered self.old self.new (centre_below (name_of self.old above) child) n) }
        ensures next { IfOk result (λ n. AddsAtMostOne self.old self.new n) }
        ensures more { IsMore self.old self.new }
        ensures one { AreOneEach self.new }
        ensures same { OnErr result (self.new ≡ self.old) }
    {
        find_or_add(&mut self.pairs, &mut self.numbers, above, child)
    }
}

/// The number of the name that a pair stands for.
fn find_or_add(
    pairs: &mut Vec<(u32, u32)>,
    numbers: &mut BTreeMap<(u32, u32), u32>,
    low: u32,
    high: u32,
) -> Result<u32, NoMemory>
    requires table { IsTable pairs.old.items numbers.old }
    requires key { IsKey pairs.old.items (first + length pairs.old.items) (low, high) }
    ensures table { IsTable pairs.new.items numbers.new }
    ensures ok { IfOk result (λ n. IsNumbered pairs.old.items pairs.new.items (name_made pairs.old.items (low, high)) n) }
    ensures next { IfOk result (λ n. AddsAtMostOne pairs.old.items pairs.new.items n) }
    ensures more { IsMore pairs.old.items pairs.new.items }
    ensures same { OnErr result (pairs.new.items ≡ pairs.old.items) }
{
    if let Some(n) = numbers.get(&(low, high)) {
        return Ok(*n);
    }
    add(pairs, numbers, low, high)
}

/// Numbers a new pair. There are fewer than 2^31 numbers: beyond them there is no memory.
fn add(
    pairs: &mut Vec<(u32, u32)>,
    numbers: &mut BTreeMap<(u32, u32), u32>,
    low: u32,
    high: u32,
) -> Result<u32, NoMemory>
    requires table { IsTable pairs.old.items numbers.old }
    requires key { IsKey pairs.old.items (first + length pairs.old.items) (low, high) }
    requires fresh { number_of numbers.old (low, high) ≡ None }
    ensures table { IsTable pairs.new.items numbers.new }
    ensures ok { IfOk result (λ n. IsNumbered pairs.old.items pairs.new.items (name_made pairs.old.items (low, high)) n) }
    ensures next { IfOk result (λ n. AddsAtMostOne pairs.old.items pairs.new.items n) }
    ensures more { IsMore pairs.old.items pairs.new.items }
    ensures same { OnErr result (pairs.new.items ≡ pairs.old.items) }
{
    let count = pairs.len();
    if count >= ROOM {
        return Err(NoMemory);
    }
    let number = FIRST + count as u32;
    pairs.push((low, high))?;
    match numbers.insert((low, high), number) {
        Ok(_) => Ok(number),
        Err(_) => {
            let _ = pairs.pop();
            Err(NoMemory)
        }
    }
}

/// Takes back the numbers of all but the first pairs.
fn shorten(pairs: &mut Vec<(u32, u32)>, numbers: &mut BTreeMap<(u32, u32), u32>, count: usize)
    requires table { IsTable pairs.old.items numbers.old }
    requires count { count ≤ length pairs.old.items }
    ensures table { IsTable pairs.new.items numbers.new }
    ensures kept { pairs.new.items ≡ take count pairs.old.items }
{
    while pairs.len() > count {
        take_back_last(pairs, numbers);
    }
}

/// Takes back the last number.
fn take_back_last(pairs: &mut Vec<(u32, u32)>, numbers: &mut BTreeMap<(u32, u32), u32>)
    requires table { IsTable pairs.old.items numbers.old }
    requires one { 0 < length pairs.old.items }
    ensures table { IsTable pairs.new.items numbers.new }
    ensures kept { pairs.new.items ≡ take (length pairs.old.items - 1) pairs.old.items }
{
    let Some(pair) = pairs.pop() else {
        return;
    };
    numbers.remove(&pair);
}
