//! Known rounds of one link.

use super::*;
use axi_beats::{Addr, BBeat};
use std::test::Fail;

fn address(id: u32) -> Addr {
    Addr {
        id,
        ..Addr::default()
    }
}

#[test]
fn beats_come_in_the_order_in_which_they_went(rt: HostRuntime) -> Result<(), Fail> {
    let mut link = Link::new(rt.alloc(), 2)?;
    crosses_threads(&link);
    assert!(rt; link.head_aw().is_none() && link.room_aw());
    let quiet = Out::default();

    // Three rounds: put 7, put 8 (now full), take one.
    for (id, room) in [(7, true), (8, false)] {
        assert!(rt; link.room_aw());
        let mut upper = Out::default();
        upper.aw_put = Some((3, address(id)));
        link.commit(3, &upper, &quiet);
        assert_eq!(rt; link.room_aw(), room, "after {id}");
        assert_eq!(rt; link.head_aw().map(|beat| beat.id), Some(7), "after {id}");
    }
    let mut lower = Out::default();
    lower.aw_take = Some(3);
    assert!(rt; link.head_aw().is_some());
    link.commit(3, &quiet, &lower);
    assert_eq!(rt; link.head_aw().map(|beat| beat.id), Some(8));
    Ok(())
}

#[test]
fn a_beat_for_another_link_is_left_alone(rt: HostRuntime) -> Result<(), Fail> {
    let mut link = Link::new(rt.alloc(), 1)?;
    let mut lower = Out::default();
    lower.b_put = Some((4, BBeat::default()));
    link.commit(3, &Out::default(), &lower);
    assert!(rt; link.head_b().is_none() && link.room_b());
    assert!(rt; link.head_w().is_none() && link.room_w());
    assert!(rt; link.head_ar().is_none() && link.room_ar());
    assert!(rt; link.head_r().is_none() && link.room_r());
    Ok(())
}
