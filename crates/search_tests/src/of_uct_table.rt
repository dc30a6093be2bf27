//! Values that were computed elsewhere from the formulas.

use uct_table::{MOST_BAR, Parent, better, going_through_gives_choice, level, root, score};

#[test]
fn levels(rt: HostRuntime) {
    for (visits, want) in [
        (0u32, 0u32),
        (1, 0),
        (2, 256),
        (3, 384),
        (1000, 2548),
        (1023, 2559),
        (1024, 2560),
        (10_000, 3384),
        (524_288, 4864),
        (1_048_576, 5120),
    ] {
        assert!(rt; visits <= 1_048_576);
        assert_eq!(rt; level(visits), want, "at {visits}");
    }
}

#[test]
fn roots(rt: HostRuntime) {
    for (x, want) in [
        (0u64, 0u32),
        (1, 1),
        (3, 1),
        (4, 2),
        (4_294_967_295, 65_535),
        (4_294_967_296, 65_536),
        // 2^62 - 1, whose nearest float is 2^62
        (4_611_686_018_427_387_903, 2_147_483_647),
        (4_611_686_018_427_387_904, 2_147_483_648),
        // the greatest square and its neighbour below
        (18_446_744_065_119_617_024, 4_294_967_294),
        (18_446_744_065_119_617_025, 4_294_967_295),
        (u64::MAX, u32::MAX),
    ] {
        assert_eq!(rt; root(x), want, "at {x}");
    }
}

/// A score's parent's visits, visits, wins, seen visits, seen wins, weight and value.
type Row = (u32, u32, u32, u32, u32, u32, u64);

#[test]
fn scores(rt: HostRuntime) {
    let rows: [Row; 21] = [
        (0, 1, 1, 0, 0, 180, 65_536),
        (1, 1, 1, 1, 1, 180, 65_536),
        (4, 1, 1, 2, 1, 180, 98_438),
        (4, 2, 1, 3, 1, 180, 68_256),
        (100, 10, 7, 0, 0, 180, 83_203),
        (100, 10, 7, 25, 10, 180, 66_198),
        (100, 10, 7, 25, 10, 0, 28_870),
        (100, 10, 7, 25, 10, 1024, 241_230),
        (1000, 300, 150, 700, 420, 180, 42_313),
        // wins above visits, seen wins above seen visits, and a parent with fewer visits
        (2, 1, 3, 0, 0, 180, 242_688),
        (2, 1, 1, 1, 2, 180, 176_143),
        (1, 5, 2, 3, 1, 180, 22_161),
        (1_048_576, 1, 1_048_576, 1, 1_048_576, 1024, 68_720_649_076),
        (1_048_576, 1_048_576, 1_048_576, 1_048_576, 0, 1024, 66_676),
        (1_048_576, 1_048_576, 0, 0, 0, 1024, 1_144),
        (2, 1, 1, 1, 1, 180, 111_616),
        // a forced win's third playout: without seen counts, and with a seen loss
        (3, 2, 2, 0, 0, 180, 105_441),
        (3, 1, 1, 0, 0, 180, 121_971),
        (3, 2, 2, 1, 0, 180, 41_890),
        // many visits: 34,078 + 3,350 and 34,454 + 3,350
        (10_000, 2500, 1300, 0, 0, 180, 37_428),
        (10_000, 2500, 1300, 400, 300, 180, 37_804),
    ];
    for (p, v, w, a, b, c, want) in rows {
        assert!(rt; v >= 1 && c <= 1024);
        assert!(rt; p <= 1_048_576 && v <= 1_048_576 && w <= 1_048_576);
        assert!(rt; a <= 1_048_576 && b <= 1_048_576);
        assert_eq!(rt; score(p, v, w, a, b, c), want, "at {p} {v} {w} {a} {b} {c}");
        let parent = Parent::of(p, c);
        assert_eq!(rt; parent.score(v, w, a, b), want);
        if let below @ ..=MOST_BAR = want - 1 {
            assert!(rt; !parent.is_low(below, v, w, a, b));
        }
    }
}

#[test]
fn preferences(rt: HostRuntime) {
    going_through_gives_choice();
    // equal scores, a greater second score, both without visits, and only one without visits
    assert!(rt; !better(2, 1, 1, 1, 1, 1, 1, 1, 1, 180));
    assert!(rt; better(2, 1, 1, 1, 0, 1, 1, 1, 1, 180));
    assert!(rt; !better(0, 0, 0, 0, 0, 0, 0, 5, 5, 180));
    assert!(rt; better(3, 1, 0, 1, 0, 0, 0, 0, 0, 180));
    assert!(rt; !better(3, 0, 0, 0, 0, 1, 1, 1, 1, 180));
    assert!(rt; better(3, 2, 2, 2, 2, 1, 1, 1, 1, 180));
}

// What settles a child by products is near its score, for every level: if all won shares are 0
// the score is the bonus, and a bar above it is low by 6 for visits that the table of reciprocal
// roots has, and by a 500th part and 6 for more.
#[test]
fn bounds(rt: HostRuntime) {
    let most_visits: [u32; 19] = [
        1, 2, 4, 8, 16, 32, 64, 128, 256, 512, 1023, 1024, 1027, 1028, 4095, 4096, 65_535, 262_143,
        1_048_576,
    ];
    for weight in [0u32, 1, 7, 180, 256, 1024] {
        for power in 0..20u32 {
            for part in 0..256u32 {
                let visits = (1u32 << power) + ((part << power) >> 8);
                assert!(rt; visits <= 1_048_576 && weight <= 1024);
                let parent = Parent::of(visits, weight);
                for v in most_visits {
                    assert!(rt; 1 <= v && v <= 1_048_576);
                    let bonus = parent.score(v, 0, 1, 0);
                    let part = if v < 1024 { 0 } else { bonus / 500 };
                    if let bar @ ..=MOST_BAR = bonus.saturating_add(part).saturating_add(6) {
                        assert!(rt; parent.is_low(bar, v, 0, 1, 0), "at {visits} {v} {weight}");
                    }
                }
            }
        }
    }
}
