ghost use Rattle.std.specs.Prelude.{◌≡◌, ◌≤◌, ◌*◌, ◌^◌, ℤ, neg_ℤ, ◌*ℤ◌, unsigned_abs};
ghost use Rattle.block_sums.specs.Shares as shares;

use fem_fixed::rdiv_by_power;

/// A free dof's weight as its own master: one, in ticks. A share by it is the whole.
pub(crate) const UNIT_WEIGHT: i64 = 65_536;

/// A share of a load, in units of 2^-32: the weight is in ticks.
#[inline(always)]
#[tactic(auto, using(crate::proofs::Units::whole_load), unfolding(crate::specs::Shares::load_share))]
pub fn load_share(weight: i64, load: i128) -> i128
    requires weight { unsigned_abs weight ≤ 2 ^ 31 }
    requires load { unsigned_abs load ≤ 2 ^ 72 }
    ensures value { result ≡ shares.load_share weight load }
    ensures size { unsigned_abs result ≤ 2 ^ 100 }
{
    if weight == UNIT_WEIGHT {
        return load;
    }
    weighted_load(weight, load)
}

/// The same by a product.
#[inline(never)]
#[tactic(auto, unfolding(crate::specs::Shares::load_share))]
fn weighted_load(weight: i64, load: i128) -> i128
    requires weight { unsigned_abs weight ≤ 2 ^ 31 }
    requires load { unsigned_abs load ≤ 2 ^ 72 }
    ensures value { result ≡ shares.load_share weight load }
    ensures size { unsigned_abs result ≤ 2 ^ 100 }
{
    rdiv_by_power(times(weight, load), 16)
}

/// A share of an entry, in units of 2^-32: both weights are in ticks.
#[inline(always)]
#[tactic(auto, using(crate::proofs::Units::whole_entry), unfolding(crate::specs::Shares::entry_share))]
pub fn entry_share(weight: i64, entry: i128, other: i64) -> i128
    requires weight { unsigned_abs weight ≤ 2 ^ 20 }
    requires entry { unsigned_abs entry ≤ 2 ^ 72 }
    requires other { unsigned_abs other ≤ 2 ^ 20 }
    ensures value { result ≡ shares.entry_share weight entry other }
    ensures size { unsigned_abs result ≤ 2 ^ 100 }
{
    if weight == UNIT_WEIGHT && other == UNIT_WEIGHT {
        return entry;
    }
    weighted_entry(weight, entry, other)
}

/// The same by a product.
#[inline(never)]
#[tactic(auto, unfolding(crate::specs::Shares::entry_share))]
fn weighted_entry(weight: i64, entry: i128, other: i64) -> i128
    requires weight { unsigned_abs weight ≤ 2 ^ 20 }
    requires entry { unsigned_abs entry ≤ 2 ^ 72 }
    requires other { unsigned_abs other ≤ 2 ^ 20 }
    ensures value { result ≡ shares.entry_share weight entry other }
    ensures size { unsigned_abs result ≤ 2 ^ 100 }
{
    rdiv_by_power(triple(weight, entry, other), 32)
}

/// What an entry and the constant of its column's dof add to a right side, in units of 2^-32: the weight and
/// the constant are in ticks.
#[tactic(auto, unfolding(crate::specs::Shares::constant_share))]
#[inline(never)]
pub fn constant_share(weight: i64, entry: i128, constant: i64) -> i128
    requires weight { unsigned_abs weight ≤ 2 ^ 20 }
    requires entry { unsigned_abs entry ≤ 2 ^ 72 }
    requires constant { unsigned_abs constant ≤ 2 ^ 31 }
    ensures value { result ≡ shares.constant_share weight entry constant }
    ensures size { unsigned_abs result ≤ 2 ^ 100 }
{
    rdiv_by_power(-triple(weight, entry, constant), 32)
}

/// The product of a number in ticks and an entry.
fn times(weight: i64, entry: i128) -> i128
    requires weight { unsigned_abs weight ≤ 2 ^ 31 }
    requires entry { unsigned_abs entry ≤ 2 ^ 72 }
    ensures value { result ≡ weight *ℤ entry }
    ensures size { unsigned_abs result ≤ unsigned_abs weight * 2 ^ 72 }
{
    weight as i128 * entry
}

/// The product of an entry and two numbers in ticks.
fn triple(weight: i64, entry: i128, other: i64) -> i128
    requires weight { unsigned_abs weight ≤ 2 ^ 20 }
    requires entry { unsigned_abs entry ≤ 2 ^ 72 }
    requires other { unsigned_abs other ≤ 2 ^ 31 }
    ensures value { result ≡ weight *ℤ entry *ℤ other }
    ensures size { unsigned_abs result ≤ 2 ^ 92 * unsigned_abs other }
{
    times(weight, entry) * other as i128
}
