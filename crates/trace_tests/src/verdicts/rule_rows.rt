//! The rules of a port, each with a trace that breaks it on each channel and near misses that don't: here those on
//! handshakes and addresses. The last round of a trace is the one that breaks the rule.

/// A trace, and the channel and the rule that its last round breaks, where it breaks one.
#[derive(Clone, Copy)]
pub(super) struct RuleRow {
    pub trace: &'static str,
    pub breaks: Option<(u8, u8)>,
}

/// Rules 1 and 2: what is offered and not taken stays, and stays the same.
pub(super) static HANDSHAKES: [RuleRow; 11] = [
    // AW goes
    RuleRow {
        trace: "1 0 axi 4 =0,10,0,2,1,0,0:0:0 - - - -
2 0 axi 4 - - - - -
",
        breaks: Some((1, 1)),
    },
    // W goes
    RuleRow {
        trace: "1 0 axi 4 - =00000000,f,1,0:0:0 - - -
2 0 axi 4 - - - - -
",
        breaks: Some((2, 1)),
    },
    // B goes
    RuleRow {
        trace: "1 0 axi 4 +2,0,0,2,1,0,0:0:0 +00000000,f,1,0:0:0 - - -
2 0 axi 4 - - =2,0,0:0:0 - -
3 0 axi 4 - - - - -
",
        breaks: Some((3, 1)),
    },
    // AR goes
    RuleRow {
        trace: "1 0 axi 4 - - - =0,10,0,2,1,0,0:0:0 -
2 0 axi 4 - - - - -
",
        breaks: Some((4, 1)),
    },
    // R goes
    RuleRow {
        trace: "1 0 axi 4 - - - +2,0,0,2,1,0,0:0:0 -
2 0 axi 4 - - - - =2,00000000,0,1,0:0:0
3 0 axi 4 - - - - -
",
        breaks: Some((5, 1)),
    },
    // AW changes
    RuleRow {
        trace: "1 0 axi 4 =0,10,0,2,1,0,0:0:0 - - - -
2 0 axi 4 +0,14,0,2,1,0,0:0:0 - - - -
",
        breaks: Some((1, 2)),
    },
    // AR changes
    RuleRow {
        trace: "1 0 axi 4 - - - =0,10,0,2,1,0,0:0:0 -
2 0 axi 4 - - - =0,14,0,2,1,0,0:0:0 -
",
        breaks: Some((4, 2)),
    },
    // W changes
    RuleRow {
        trace: "1 0 axi 4 - =00000000,f,1,0:0:0 - - -
2 0 axi 4 - +00000001,f,1,0:0:0 - - -
",
        breaks: Some((2, 2)),
    },
    // B changes
    RuleRow {
        trace: "1 0 axi 4 +2,0,0,2,1,0,0:0:0 +00000000,f,1,0:0:0 - - -
2 0 axi 4 - - =2,0,0:0:0 - -
3 0 axi 4 - - +2,2,0:0:0 - -
",
        breaks: Some((3, 2)),
    },
    // R changes
    RuleRow {
        trace: "1 0 axi 4 - - - +2,0,0,2,1,0,0:0:0 -
2 0 axi 4 - - - - =2,00000000,0,1,0:0:0
3 0 axi 4 - - - - +2,00000001,0,1,0:0:0
",
        breaks: Some((5, 2)),
    },
    // all wait and stay
    RuleRow {
        trace: "1 0 axi 4 +2,0,0,2,1,0,0:0:0 +00000000,f,1,0:0:0 - +1,0,0,2,1,0,0:0:0 -
2 0 axi 4 =0,10,0,2,1,0,0:0:0 =00000000,f,1,0:0:0 =2,0,0:0:0 =0,10,0,2,1,0,0:0:0 =1,00000000,0,1,0:0:0
3 0 axi 4 =0,10,0,2,1,0,0:0:0 =00000000,f,1,0:0:0 =2,0,0:0:0 =0,10,0,2,1,0,0:0:0 =1,00000000,0,1,0:0:0
4 0 axi 4 +0,10,0,2,1,0,0:0:0 +00000000,f,1,0:0:0 +2,0,0:0:0 +0,10,0,2,1,0,0:0:0 +1,00000000,0,1,0:0:0
5 0 axi 4 - - - - -
",
        breaks: None,
    },
];

/// Rules 3 to 8: what an address asks for.
pub(super) static ADDRESSES: [RuleRow; 29] = [
    // the reserved burst code on AW
    RuleRow {
        trace: "1 0 axi 4 =0,10,0,2,3,0,0:0:0 - - - -
",
        breaks: Some((1, 3)),
    },
    // the reserved burst code on AR
    RuleRow {
        trace: "1 0 axi 4 - - - =0,10,0,2,3,0,0:0:0 -
",
        breaks: Some((4, 3)),
    },
    // 8 bytes on a bus of 4 on AW
    RuleRow {
        trace: "1 0 axi 4 =0,10,0,3,1,0,0:0:0 - - - -
",
        breaks: Some((1, 4)),
    },
    // 8 bytes on a bus of 4 on AR
    RuleRow {
        trace: "1 0 axi 4 - - - =0,10,0,3,1,0,0:0:0 -
",
        breaks: Some((4, 4)),
    },
    // FIXED of 17 on AW
    RuleRow {
        trace: "1 0 axi 4 =0,10,16,2,0,0,0:0:0 - - - -
",
        breaks: Some((1, 5)),
    },
    // FIXED of 17 on AR
    RuleRow {
        trace: "1 0 axi 4 - - - =0,10,16,2,0,0,0:0:0 -
",
        breaks: Some((4, 5)),
    },
    // FIXED of 16 on AW
    RuleRow {
        trace: "1 0 axi 4 =0,10,15,2,0,0,0:0:0 - - - -
",
        breaks: None,
    },
    // FIXED of 16 on AR
    RuleRow {
        trace: "1 0 axi 4 - - - =0,10,15,2,0,0,0:0:0 -
",
        breaks: None,
    },
    // INCR of 255 on AW
    RuleRow {
        trace: "1 0 axi 4 =0,10,254,2,1,0,0:0:0 - - - -
",
        breaks: None,
    },
    // INCR of 255 on AR
    RuleRow {
        trace: "1 0 axi 4 - - - =0,10,254,2,1,0,0:0:0 -
",
        breaks: None,
    },
    // WRAP of 3 on AW
    RuleRow {
        trace: "1 0 axi 4 =0,10,2,2,2,0,0:0:0 - - - -
",
        breaks: Some((1, 5)),
    },
    // WRAP of 3 on AR
    RuleRow {
        trace: "1 0 axi 4 - - - =0,10,2,2,2,0,0:0:0 -
",
        breaks: Some((4, 5)),
    },
    // WRAP of 2 on AW
    RuleRow {
        trace: "1 0 axi 4 =0,10,1,2,2,0,0:0:0 - - - -
",
        breaks: None,
    },
    // WRAP of 2 on AR
    RuleRow {
        trace: "1 0 axi 4 - - - =0,10,1,2,2,0,0:0:0 -
",
        breaks: None,
    },
    // an exclusive access on AW
    RuleRow {
        trace: "1 0 axi 4 =0,10,0,2,1,1,0:0:0 - - - -
",
        breaks: Some((1, 8)),
    },
    // an exclusive access on AR
    RuleRow {
        trace: "1 0 axi 4 - - - =0,10,0,2,1,1,0:0:0 -
",
        breaks: Some((4, 8)),
    },
    // WRAP from 18 on AW
    RuleRow {
        trace: "1 0 axi 4 =0,12,1,2,2,0,0:0:0 - - - -
",
        breaks: Some((1, 6)),
    },
    // WRAP from 18 on AR
    RuleRow {
        trace: "1 0 axi 4 - - - =0,12,1,2,2,0,0:0:0 -
",
        breaks: Some((4, 6)),
    },
    // WRAP from 20 on AW
    RuleRow {
        trace: "1 0 axi 4 =0,14,1,2,2,0,0:0:0 - - - -
",
        breaks: None,
    },
    // WRAP from 20 on AR
    RuleRow {
        trace: "1 0 axi 4 - - - =0,14,1,2,2,0,0:0:0 -
",
        breaks: None,
    },
    // over the end of a page on AW
    RuleRow {
        trace: "1 0 axi 4 =0,ffc,1,2,1,0,0:0:0 - - - -
",
        breaks: Some((1, 7)),
    },
    // over the end of a page on AR
    RuleRow {
        trace: "1 0 axi 4 - - - =0,ffc,1,2,1,0,0:0:0 -
",
        breaks: Some((4, 7)),
    },
    // up to the end of a page on AW
    RuleRow {
        trace: "1 0 axi 4 =0,ff8,1,2,1,0,0:0:0 - - - -
",
        breaks: None,
    },
    // up to the end of a page on AR
    RuleRow {
        trace: "1 0 axi 4 - - - =0,ff8,1,2,1,0,0:0:0 -
",
        breaks: None,
    },
    // FIXED at the end of a page on AW
    RuleRow {
        trace: "1 0 axi 4 =0,ffc,1,2,0,0,0:0:0 - - - -
",
        breaks: None,
    },
    // FIXED at the end of a page on AR
    RuleRow {
        trace: "1 0 axi 4 - - - =0,ffc,1,2,0,0,0:0:0 -
",
        breaks: None,
    },
    // the least of two rules on AW
    RuleRow {
        trace: "1 0 axi 4 =0,10,16,2,0,1,0:0:0 - - - -
",
        breaks: Some((1, 5)),
    },
    // the least of two rules on AR
    RuleRow {
        trace: "1 0 axi 4 - - - =0,10,16,2,0,1,0:0:0 -
",
        breaks: Some((4, 5)),
    },
    // the least of two channels
    RuleRow {
        trace: "1 0 axi 4 =0,10,16,2,0,1,0:0:0 - - =0,10,0,2,3,0,0:0:0 -
",
        breaks: Some((1, 5)),
    },
];
