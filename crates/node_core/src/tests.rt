//! Known turns and waits.

use super::*;
use axi_beats::{Addr, BBeat};
use std::test::Fail;

#[test]
fn each_port_has_its_turn(rt: HostRuntime) -> Result<(), Fail> {
    let mut turn = Turn::new(3);
    assert_eq!(rt; turn.first(0b111), Some(0));
    turn.picked(0);
    assert_eq!(rt; turn.first(0b111), Some(1));
    turn.picked(2);
    assert_eq!(rt; turn.first(0b110), Some(1));
    assert!(rt; turn.first(0b1000).is_none());
    Ok(())
}

#[test]
fn a_row_waits_as_its_delays_say(rt: HostRuntime) -> Result<(), Fail> {
    let mut pace = Pace::new(&[1, 0]);
    assert!(rt; !pace.ask(true));
    assert!(rt; !pace.ask(false));
    assert!(rt; pace.ask(true));
    assert!(rt; pace.ask(true));
    assert!(rt; !pace.ask(true));
    Ok(())
}

#[test]
fn a_row_is_set_in_place(rt: HostRuntime) -> Result<(), Fail> {
    let beat = Addr {
        id: 7,
        ..Addr::default()
    };
    let mut put = None;
    set_put(&mut put, 3, passed(true, Some(&beat)));
    assert_eq!(rt; put.map(|(link, beat)| (link, beat.id)), Some((3, 7)));
    set_put(&mut put, 3, passed(false, Some(&beat)));
    assert!(rt; put.is_none());
    let mut response: Option<(u32, BBeat)> = None;
    open_put(&mut response, 4);
    assert_eq!(rt; response.map(|(link, _)| link), Some(4));
    let mut take = None;
    set_take(&mut take, 5, true);
    assert_eq!(rt; take, Some(5));
    Ok(())
}
