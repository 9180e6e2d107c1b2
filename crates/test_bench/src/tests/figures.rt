use bench_table::rounds::rounds;
use bench_table::tenths::Tenths;
use std::test::Fail;

/// Texts, with the number of rounds that they ask for.
const ASKED: [(&[u8], u64); 6] = [
    (b"0", 0),
    (b"1\n", 1),
    (b" 12\r\n", 12),
    (b"\t007 \n\n", 7),
    (b"99999", 99999),
    (b"100000\n", 100000),
];

#[test]
fn digits_are_rounds(rt: HostRuntime) {
    for (text, want) in ASKED {
        assert_eq!(rt; rounds(text), Ok(want));
    }
}

/// Figures, with the median and the lower and the upper tenth.
const FIGURES: [(&[u64], u64, u64, u64); 4] = [
    (&[5], 5, 5, 5),
    (&[9, 7], 9, 7, 9),
    (&[3, 1, 2], 2, 1, 3),
    (&[10, 3, 8, 1, 6, 5, 4, 7, 2, 9], 6, 2, 9),
];

#[test]
fn tenths_stand_in_order(rt: HostRuntime) -> Result<(), Fail> {
    for (figures, median, lower, upper) in FIGURES {
        let mut sorted = figures.to_vec(rt.alloc())?;
        assert!(rt; !sorted.is_empty());
        let tenths = Tenths::of(&mut sorted);
        assert_eq!(rt;
            tenths,
            Tenths {
                median,
                lower,
                upper
            }
        );
    }
    Ok(())
}
