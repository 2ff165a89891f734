//! Known values of the worse response, of the codes, and of lanes that are set.

use super::*;

#[test]
fn the_worse_response_wins(rt: HostRuntime) {
    let table = [
        (Resp::Okay, Resp::Okay, Resp::Okay),
        (Resp::Okay, Resp::SlvErr, Resp::SlvErr),
        (Resp::SlvErr, Resp::Okay, Resp::SlvErr),
        (Resp::SlvErr, Resp::DecErr, Resp::DecErr),
        (Resp::DecErr, Resp::SlvErr, Resp::DecErr),
        (Resp::DecErr, Resp::Okay, Resp::DecErr),
    ];
    for (a, b, want) in table {
        assert_eq!(rt; worst(a, b), want, "{a:?} and {b:?}");
    }
}

#[test]
fn lanes_keep_what_is_put_on_them(rt: HostRuntime) {
    let mut lanes = Lanes::zero();
    lanes.set(0, 0x11);
    lanes.set(127, 0xff);
    for (lane, want) in [(0, 0x11), (1, 0), (126, 0), (127, 0xff)] {
        assert_eq!(rt; lanes.get(lane), want, "lane {lane}");
    }
    let mut beat = WBeat::default();
    assert_eq!(rt; beat.lanes.get(127), 0);
    beat.lanes.assign(&lanes);
    assert_eq!(rt; beat.lanes.get(127), 0xff);
}

#[test]
fn codes_are_those_of_the_standard(rt: HostRuntime) {
    laws();
    for (code, burst) in [
        (0, Some(Burst::Fixed)),
        (1, Some(Burst::Incr)),
        (2, Some(Burst::Wrap)),
        (3, None),
        (4, None),
    ] {
        assert_eq!(rt; Burst::from_code(code), burst, "AxBURST {code}");
        if let Some(burst) = burst {
            assert_eq!(rt; burst.code(), code, "{burst:?}");
        }
    }
    for (code, response) in [
        (0, Some(Resp::Okay)),
        (1, None),
        (2, Some(Resp::SlvErr)),
        (3, Some(Resp::DecErr)),
    ] {
        assert_eq!(rt; Resp::from_code(code), response, "xRESP {code}");
        if let Some(response) = response {
            assert_eq!(rt; response.code(), code, "{response:?}");
        }
    }
}
