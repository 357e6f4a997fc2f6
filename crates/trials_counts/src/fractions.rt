use damage::exact_frac::{Frac, MAX_DEN};

// The expected values are those of Python's exact `Fraction`.
#[test]
fn multiples(rt: HostRuntime) {
    let table: [(u128, u128, u64, u64, u128, (u64, u32)); 8] = [
        (3, 1, 4, 1, 1, (1, 333333334)),
        (
            3,
            2,
            18446744073709551615,
            12297829382473034410,
            0,
            (12297829382473034410, 0),
        ),
        (
            10000000000000000000000000000000000000,
            9999999999999999999999999999999999999,
            18446744073709551615,
            18446744073709551614,
            9999999999999999981553255926290448385,
            (18446744073709551615, 0),
        ),
        (10000000000000000000000000000000000000, 1, 1, 0, 1, (0, 1)),
        (
            217438998607457,
            207307159300000,
            1,
            0,
            207307159300000,
            (0, 953403763),
        ),
        (1000000000, 999999999, 1, 0, 999999999, (0, 999999999)),
        (1000000001, 1000000000, 1, 0, 1000000000, (1, 0)),
        (7, 0, 9, 0, 0, (0, 0)),
    ];
    for (den, num, n, whole, rest, decimals) in table {
        assert!(rt; num < den);
        assert!(rt; den <= MAX_DEN);
        let mut sum = Frac::zero(den);
        sum.add_times(num, n);
        assert_eq!(rt; (sum.whole, sum.num, sum.den), (whole, rest, den));
        assert!(rt; sum.whole < u64::MAX);
        assert_eq!(rt; sum.ceil_decimals(), decimals, "{n} times {num}/{den}");
    }
}

// 2 + 2/3 and 5 times 2/3 are 6.
#[test]
fn sums(rt: HostRuntime) {
    let mut sum = Frac {
        whole: 2,
        num: 2,
        den: 3,
    };
    sum.add_times(2, 5);
    assert_eq!(rt; (sum.whole, sum.num, sum.den), (6, 0, 3));
}
