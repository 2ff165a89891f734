//! Traces as in `rule_rows`, of the six rules of an AXI4-Lite port.

use super::rule_rows::RuleRow;

/// Rules 1 and 2, as on AXI4.
pub(super) static LITE_HANDSHAKES: [RuleRow; 11] = [
    // AW goes
    RuleRow {
        trace: "1 0 lite 4 =0,10,0,2,1,0,0:0:3 - - - -
2 0 lite 4 - - - - -
",
        breaks: Some((1, 1)),
    },
    // W goes
    RuleRow {
        trace: "1 0 lite 4 - =00000000,f,1,0:0:3 - - -
2 0 lite 4 - - - - -
",
        breaks: Some((2, 1)),
    },
    // B goes
    RuleRow {
        trace: "1 0 lite 4 +0,10,0,2,1,0,0:0:3 +00000000,f,1,0:0:3 - - -
2 0 lite 4 - - =0,0,0:0:3 - -
3 0 lite 4 - - - - -
",
        breaks: Some((3, 1)),
    },
    // AR goes
    RuleRow {
        trace: "1 0 lite 4 - - - =0,10,0,2,1,0,0:0:3 -
2 0 lite 4 - - - - -
",
        breaks: Some((4, 1)),
    },
    // R goes
    RuleRow {
        trace: "1 0 lite 4 - - - +0,10,0,2,1,0,0:0:3 -
2 0 lite 4 - - - - =0,00000000,0,1,0:0:3
3 0 lite 4 - - - - -
",
        breaks: Some((5, 1)),
    },
    // AW changes
    RuleRow {
        trace: "1 0 lite 4 =0,10,0,2,1,0,0:0:3 - - - -
2 0 lite 4 +0,14,0,2,1,0,0:0:3 - - - -
",
        breaks: Some((1, 2)),
    },
    // W changes
    RuleRow {
        trace: "1 0 lite 4 - =00000000,f,1,0:0:3 - - -
2 0 lite 4 - +00000001,f,1,0:0:3 - - -
",
        breaks: Some((2, 2)),
    },
    // B changes
    RuleRow {
        trace: "1 0 lite 4 +0,10,0,2,1,0,0:0:3 +00000000,f,1,0:0:3 - - -
2 0 lite 4 - - =0,0,0:0:3 - -
3 0 lite 4 - - +0,2,0:0:3 - -
",
        breaks: Some((3, 2)),
    },
    // AR changes
    RuleRow {
        trace: "1 0 lite 4 - - - =0,10,0,2,1,0,0:0:3 -
2 0 lite 4 - - - =0,14,0,2,1,0,0:0:3 -
",
        breaks: Some((4, 2)),
    },
    // R changes
    RuleRow {
        trace: "1 0 lite 4 - - - +0,10,0,2,1,0,0:0:3 -
2 0 lite 4 - - - - =0,00000000,0,1,0:0:3
3 0 lite 4 - - - - +0,00000001,0,1,0:0:3
",
        breaks: Some((5, 2)),
    },
    // all wait and stay
    RuleRow {
        trace: "1 0 lite 4 +0,10,0,2,1,0,0:0:3 +00000000,f,1,0:0:3 - +0,10,0,2,1,0,0:0:3 -
2 0 lite 4 =0,10,0,2,1,0,0:0:3 =00000000,f,1,0:0:3 =0,0,0:0:3 =0,10,0,2,1,0,0:0:3 =0,00000000,0,1,0:0:3
3 0 lite 4 +0,10,0,2,1,0,0:0:3 +00000000,f,1,0:0:3 +0,0,0:0:3 +0,10,0,2,1,0,0:0:3 +0,00000000,0,1,0:0:3
4 0 lite 4 - - - - -
",
        breaks: None,
    },
];

/// Rules 3 to 6: accesses, data and answers.
pub(super) static LITE_BEATS: [RuleRow; 24] = [
    // an ID on AW
    RuleRow {
        trace: "1 0 lite 4 +1,0,0,2,1,0,1:0:3 - - - -
",
        breaks: Some((1, 3)),
    },
    // an ID on AR
    RuleRow {
        trace: "1 0 lite 4 - - - =1,0,0,2,1,0,1:0:3 -
",
        breaks: Some((4, 3)),
    },
    // two beats
    RuleRow {
        trace: "1 0 lite 4 +0,0,1,2,1,0,1:0:3 - - - -
",
        breaks: Some((1, 3)),
    },
    // 2 bytes of 4
    RuleRow {
        trace: "1 0 lite 4 - - - +0,0,0,1,1,0,1:0:3 -
",
        breaks: Some((4, 3)),
    },
    // 8 bytes on a bus of 4
    RuleRow {
        trace: "1 0 lite 4 +0,0,0,3,1,0,1:0:3 - - - -
",
        breaks: Some((1, 3)),
    },
    // FIXED
    RuleRow {
        trace: "1 0 lite 4 - - - +0,0,0,2,0,0,1:0:3 -
",
        breaks: Some((4, 3)),
    },
    // exclusive
    RuleRow {
        trace: "1 0 lite 4 +0,0,0,2,1,1,1:0:3 - - - -
",
        breaks: Some((1, 3)),
    },
    // an address that is not aligned
    RuleRow {
        trace: "1 0 lite 4 +0,12,0,2,1,0,1:2:3 - - - -
",
        breaks: None,
    },
    // data without last
    RuleRow {
        trace: "1 0 lite 4 - +00000000,f,0,1:0:3 - - -
",
        breaks: Some((2, 4)),
    },
    // no strobe at all
    RuleRow {
        trace: "1 0 lite 4 - +00000000,0,1,1:0:3 - - -
",
        breaks: None,
    },
    // a response with an ID
    RuleRow {
        trace: "1 0 lite 4 +0,10,0,2,1,0,0:0:3 +00000000,f,1,0:0:3 - - -
2 0 lite 4 - - +1,0,0:0:3 - -
",
        breaks: Some((3, 4)),
    },
    // read data with an ID
    RuleRow {
        trace: "1 0 lite 4 - - - +0,10,0,2,1,0,0:0:3 -
2 0 lite 4 - - - - +1,00000000,0,1,0:0:3
",
        breaks: Some((5, 4)),
    },
    // read data without last
    RuleRow {
        trace: "1 0 lite 4 - - - +0,10,0,2,1,0,0:0:3 -
2 0 lite 4 - - - - +0,00000000,0,0,0:0:3
",
        breaks: Some((5, 4)),
    },
    // EXOKAY on B
    RuleRow {
        trace: "1 0 lite 4 - - +0,1,1:0:3 - -
",
        breaks: Some((3, 5)),
    },
    // EXOKAY on R
    RuleRow {
        trace: "1 0 lite 4 - - - +0,10,0,2,1,0,0:0:3 -
2 0 lite 4 - - - - +0,00000000,1,1,0:0:3
",
        breaks: Some((5, 5)),
    },
    // a response to nothing
    RuleRow {
        trace: "1 0 lite 4 - - +0,0,1:0:3 - -
",
        breaks: Some((3, 6)),
    },
    // in the round of the data
    RuleRow {
        trace: "1 0 lite 4 +0,10,0,2,1,0,0:0:3 - - - -
2 0 lite 4 - +00000000,f,1,0:0:3 =0,0,0:0:3 - -
",
        breaks: Some((3, 6)),
    },
    // without data
    RuleRow {
        trace: "1 0 lite 4 +0,10,0,2,1,0,0:0:3 - - - -
2 0 lite 4 - - =0,0,0:0:3 - -
",
        breaks: Some((3, 6)),
    },
    // without an address
    RuleRow {
        trace: "1 0 lite 4 - +00000000,f,1,0:0:3 - - -
2 0 lite 4 - - =0,0,0:0:3 - -
",
        breaks: Some((3, 6)),
    },
    // two responses to one beat of data
    RuleRow {
        trace: "1 0 lite 4 +0,10,0,2,1,0,0:0:3 +00000000,f,1,0:0:3 - - -
2 0 lite 4 +0,14,0,2,1,0,0:0:3 - +0,0,0:0:3 - -
3 0 lite 4 - - +0,0,0:0:3 - -
",
        breaks: Some((3, 6)),
    },
    // data first
    RuleRow {
        trace: "1 0 lite 4 - +00000000,f,1,0:0:3 - - -
2 0 lite 4 +0,10,0,2,1,0,0:0:3 - - - -
3 0 lite 4 - - +0,2,0:0:3 - -
",
        breaks: None,
    },
    // read data in the round of its address
    RuleRow {
        trace: "1 0 lite 4 - - - +0,10,0,2,1,0,0:0:3 =0,00000000,0,1,0:0:3
",
        breaks: Some((5, 6)),
    },
    // a beat too many
    RuleRow {
        trace: "1 0 lite 4 - - - +0,10,0,2,1,0,0:0:3 -
2 0 lite 4 - - - - +0,00000000,0,1,0:0:3
3 0 lite 4 - - - - +0,00000000,0,1,0:0:3
",
        breaks: Some((5, 6)),
    },
    // two reads
    RuleRow {
        trace: "1 0 lite 4 - - - +0,10,0,2,1,0,0:0:3 -
2 0 lite 4 - - - +0,14,0,2,1,0,0:0:3 -
3 0 lite 4 - - - - +0,00000000,0,1,0:0:3
4 0 lite 4 - - - - +0,00000001,0,1,0:0:3
",
        breaks: None,
    },
];
