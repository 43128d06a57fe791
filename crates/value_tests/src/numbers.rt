//! Rounding, roots, kept sums and the numbers that words say.
use fem_fixed::{
    NumberFault, SUM_LIMIT, add_kept, rdiv, rdiv_by_power, read_id, read_number, root,
};

// The greatest numbers of 128 bits halve to a tie.
const GREATEST: i128 = 170141183460469231731687303715884105727;

#[test]
fn quotients_go_to_the_nearest_and_ties_to_the_even_one(rt: HostRuntime) {
    for (n, d, nearest) in [
        (5, 2, 2),
        (7, 2, 4),
        (-5, 2, -2),
        (8, 3, 3),
        (-7, 3, -2),
        (GREATEST, 2, 85070591730234615865843651857942052864),
        (-GREATEST, 2, -85070591730234615865843651857942052864),
        (GREATEST, 3, 56713727820156410577229101238628035242),
    ] {
        assert_eq!(rt; rdiv(n, d), nearest, "{n} / {d}");
    }
    for (n, nearest) in [(163_840, 2), (229_376, 4), (-163_840, -2), (-163_841, -3)] {
        assert_eq!(rt; rdiv_by_power(n, 16), nearest, "{n} / 2^16");
    }
}

#[test]
fn roots_are_rounded_down(rt: HostRuntime) {
    for (n, r) in [
        (0, 0),
        (1, 1),
        (3, 1),
        (4, 2),
        (15, 3),
        (16, 4),
        (4_294_967_296, 65_536),
        (8_589_934_592, 92_681),
        (u128::MAX, 18_446_744_073_709_551_615),
    ] {
        assert_eq!(rt; root(n), r, "root of {n}");
    }
}

// The kept sum of two numbers, where they are within the limits of the call.
fn kept(entry: i128, term: i128, digits: u32) -> Option<Option<i128>> {
    if entry.unsigned_abs() > SUM_LIMIT || term.unsigned_abs() > SUM_LIMIT || digits > 64 {
        return None;
    }
    Some(add_kept(entry, term, digits))
}

const LIMIT: i128 = 1_208_925_819_614_629_174_706_176;

#[test]
fn sums_keep_their_digits_and_stay_within_their_limit(rt: HostRuntime) {
    for (entry, term, digits, sum) in [
        (2, 3, 0, Some(5)),
        (2, 3, 3, Some(5)),
        (2, 3, 2, Some(4)),
        (3, 4, 2, Some(8)),
        (-3, -8, 3, Some(-12)),
        (3, 6, 3, Some(8)),
        (1, 5, 1, Some(8)),
        (LIMIT - 1, 1, 0, Some(LIMIT)),
        (LIMIT - 1, 0, 64, Some(LIMIT)),
        (LIMIT, 1, 0, None),
        (LIMIT, 1, 1, None),
        (-LIMIT, -1, 0, None),
    ] {
        assert_eq!(rt;
            kept(entry, term, digits),
            Some(sum),
            "{entry} + {term} to {digits}"
        );
    }
}

#[test]
fn words_give_ticks(rt: HostRuntime) {
    for (word, ticks) in [
        ("0.5", Ok(32_768)),
        ("0.00000762939453125", Ok(0)),
        ("0.00002288818359375", Ok(2)),
        ("-1.5", Ok(-98_304)),
        ("2.", Ok(131_072)),
        (".5", Ok(32_768)),
        ("1E0", Ok(65_536)),
        ("-0", Ok(0)),
        ("1e-9999", Ok(0)),
        ("1e0000000001", Ok(655_360)),
        ("2147483648", Ok(140_737_488_355_328)),
        ("1e400", Err(NumberFault::Range)),
        ("0e99999", Err(NumberFault::Range)),
        ("2147483649", Err(NumberFault::Range)),
        ("nan", Err(NumberFault::Form)),
        ("1e", Err(NumberFault::Form)),
        (".", Err(NumberFault::Form)),
        ("+", Err(NumberFault::Form)),
        ("", Err(NumberFault::Form)),
    ] {
        assert_eq!(rt; read_number(word.as_bytes()), ticks, "{word}");
    }
}

#[test]
fn words_give_ids(rt: HostRuntime) {
    for (word, id) in [
        ("0", Some(0)),
        ("0000000007", Some(7)),
        ("4294967295", Some(4_294_967_295)),
        ("4294967296", None),
        ("00000000007", None),
        ("+7", None),
        ("7.", None),
        ("", None),
    ] {
        assert_eq!(rt; read_id(word.as_bytes()), id, "{word}");
    }
}
