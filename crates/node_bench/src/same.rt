//! Whether two nodes' moves are the same.

use crate::fault::BenchFault;
use axi_beats::{Lanes, RBeat, WBeat};
use axi_link::Out;

/// Checks that these are the moves that a row wants, channel by channel.
pub(crate) fn check_moves(round: u64, moves: &Out, wanted: &Out) -> Result<(), BenchFault> {
    let takes = [
        moves.aw_take == wanted.aw_take,
        moves.w_take == wanted.w_take,
        moves.b_take == wanted.b_take,
        moves.ar_take == wanted.ar_take,
        moves.r_take == wanted.r_take,
    ];
    if takes.contains(&false) {
        return Err(BenchFault::OtherTakes(round, takes));
    }
    let puts = [
        moves.aw_put == wanted.aw_put,
        same_puts_w(&moves.w_put, &wanted.w_put),
        moves.b_put == wanted.b_put,
        moves.ar_put == wanted.ar_put,
        same_puts_r(&moves.r_put, &wanted.r_put),
    ];
    if puts.contains(&false) {
        return Err(BenchFault::OtherPuts(round, puts));
    }
    Ok(())
}

fn same_puts_w(put: &Option<(u32, WBeat)>, wanted: &Option<(u32, WBeat)>) -> bool {
    match (put, wanted) {
        (Some((link, beat)), Some((other, same))) => {
            link == other
                && beat.strobe == same.strobe
                && beat.last == same.last
                && beat.tag == same.tag
                && same_lanes(&beat.lanes, &same.lanes)
        }
        (None, None) => true,
        _ => false,
    }
}

fn same_puts_r(put: &Option<(u32, RBeat)>, wanted: &Option<(u32, RBeat)>) -> bool {
    match (put, wanted) {
        (Some((link, beat)), Some((other, same))) => {
            link == other
                && beat.id == same.id
                && beat.resp == same.resp
                && beat.last == same.last
                && beat.tag == same.tag
                && same_lanes(&beat.lanes, &same.lanes)
        }
        (None, None) => true,
        _ => false,
    }
}

fn same_lanes(lanes: &Lanes, others: &Lanes) -> bool {
    (0..128).all(|lane| lanes.get(lane) == others.get(lane))
}
