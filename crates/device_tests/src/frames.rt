use cop_frame::{Rate, RateSet, least_bits, worst_bits};

/// Bytes of data, and the least and the greatest length of a frame in bits.
const LENGTHS: &[(u8, u32, u32)] = &[(0, 47, 55), (1, 55, 65), (7, 103, 125), (8, 111, 135)];

/// The rates, and the ticks of a bit.
const TICKS: &[(Rate, u32)] = &[
    (Rate::Kbit10, 400),
    (Rate::Kbit20, 200),
    (Rate::Kbit50, 80),
    (Rate::Kbit125, 32),
    (Rate::Kbit250, 16),
    (Rate::Kbit500, 8),
    (Rate::Kbit800, 5),
    (Rate::Kbit1000, 4),
];

#[test]
fn lengths(rt: HostRuntime) {
    for case in LENGTHS {
        let (bytes, least, worst) = *case;
        assert_eq!(rt; least_bits(bytes), least);
        assert_eq!(rt; worst_bits(bytes), worst);
    }
}

#[test]
fn rates(rt: HostRuntime) {
    for case in TICKS {
        let (rate, ticks) = *case;
        assert_eq!(rt; rate.ticks_per_bit(), ticks);
        assert!(rt; Rate::from_kbits(rate.kbits()) == Some(rate));
    }
    assert!(rt; Rate::from_kbits(100).is_none());
}

#[test]
fn rates_are_ordered_by_kbits(rt: HostRuntime) {
    for slow in Rate::ALL {
        for fast in Rate::ALL {
            assert_eq!(rt; slow < fast, slow.kbits() < fast.kbits());
        }
    }
}

#[test]
fn sets(rt: HostRuntime) {
    let mut set = RateSet::new();
    assert!(rt; set.slowest().is_none());
    set.insert(Rate::Kbit500);
    set.insert(Rate::Kbit20);
    let mut other = RateSet::new();
    other.insert(Rate::Kbit500);
    other.insert(Rate::Kbit10);
    assert!(rt; set.slowest() == Some(Rate::Kbit20));
    assert!(rt; set.both(&other).slowest() == Some(Rate::Kbit500));
    assert!(rt; set.contains(Rate::Kbit20) && !set.contains(Rate::Kbit10));
}
