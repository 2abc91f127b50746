use page_clock::{Clock, Pick};

#[test]
fn four_frames_at_distance_two(rt: HostRuntime) {
    let mut clock = Clock::new(4, 2);
    let steps = [
        Pick::Front(0),
        Pick::Back(2),
        Pick::Front(1),
        Pick::Back(3),
        Pick::Front(2),
        Pick::Back(0),
        Pick::Front(3),
        Pick::Back(1),
        Pick::Front(0),
    ];
    for (number, pick) in steps.iter().enumerate() {
        assert_eq!(rt; clock.step(), *pick, "at step {number}");
    }
}

#[test]
fn the_least_clock_has_two_frames(rt: HostRuntime) {
    let mut clock = Clock::new(2, 1);
    for pick in [
        Pick::Front(0),
        Pick::Back(1),
        Pick::Front(1),
        Pick::Back(0),
        Pick::Front(0),
    ] {
        assert_eq!(rt; clock.step(), pick);
    }
}

#[test]
fn each_pick_has_one_turn_in_the_first_round(rt: HostRuntime) {
    let turns = [
        (Pick::Front(0), 0),
        (Pick::Front(3), 6),
        (Pick::Back(2), 1),
        (Pick::Back(3), 3),
        (Pick::Back(0), 5),
        (Pick::Back(1), 7),
    ];
    for (pick, turn) in turns {
        assert_eq!(rt; Clock::turn_of(4, 2, pick), turn, "at {pick:?}");
    }
}
