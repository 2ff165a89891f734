//! Traces as in `rule_rows`, of the rules on write data and on answers.

use super::rule_rows::RuleRow;

/// Rules 9 and 10: the n-th burst of W beats is the data of the n-th address.
pub(super) static DATA: [RuleRow; 15] = [
    // two beats
    RuleRow {
        trace: "1 0 axi 4 +0,0,1,2,1,0,0:0:0 - - - -
2 0 axi 4 - +00000000,f,0,0:0:0 - - -
3 0 axi 4 - +00000000,f,1,0:0:0 - - -
",
        breaks: None,
    },
    // last too early
    RuleRow {
        trace: "1 0 axi 4 +0,0,1,2,1,0,0:0:0 - - - -
2 0 axi 4 - +00000000,f,1,0:0:0 - - -
",
        breaks: Some((2, 9)),
    },
    // last too late
    RuleRow {
        trace: "1 0 axi 4 +0,0,1,2,1,0,0:0:0 - - - -
2 0 axi 4 - +00000000,f,0,0:0:0 - - -
3 0 axi 4 - +00000000,f,0,0:0:0 - - -
",
        breaks: Some((2, 9)),
    },
    // in order
    RuleRow {
        trace: "1 0 axi 4 +1,0,0,2,1,0,0:0:0 - - - -
2 0 axi 4 +0,0,1,2,1,0,0:0:0 - - - -
3 0 axi 4 - +00000000,f,1,0:0:0 - - -
4 0 axi 4 - +00000000,f,0,0:0:0 - - -
5 0 axi 4 - +00000000,f,1,0:0:0 - - -
",
        breaks: None,
    },
    // out of order
    RuleRow {
        trace: "1 0 axi 4 +1,0,0,2,1,0,0:0:0 - - - -
2 0 axi 4 +0,0,1,2,1,0,0:0:0 - - - -
3 0 axi 4 - +00000000,f,0,0:0:0 - - -
",
        breaks: Some((2, 9)),
    },
    // data first
    RuleRow {
        trace: "1 0 axi 4 - +00000000,f,0,0:0:0 - - -
2 0 axi 4 - +00000000,f,1,0:0:0 - - -
3 0 axi 4 +0,0,1,2,1,0,0:0:0 - - - -
",
        breaks: None,
    },
    // data first, last too early
    RuleRow {
        trace: "1 0 axi 4 - +00000000,f,1,0:0:0 - - -
2 0 axi 4 +0,0,1,2,1,0,0:0:0 - - - -
",
        breaks: Some((2, 9)),
    },
    // data first, last too late
    RuleRow {
        trace: "1 0 axi 4 - +00000000,f,0,0:0:0 - - -
2 0 axi 4 - +00000000,f,0,0:0:0 - - -
3 0 axi 4 +0,0,1,2,1,0,0:0:0 - - - -
",
        breaks: Some((2, 9)),
    },
    // data first, in order
    RuleRow {
        trace: "1 0 axi 4 - +00000000,f,1,0:0:0 - - -
2 0 axi 4 - +00000000,f,0,0:0:0 - - -
3 0 axi 4 +1,0,0,2,1,0,0:0:0 - - - -
4 0 axi 4 - +00000000,f,1,0:0:0 - - -
5 0 axi 4 +0,0,1,2,1,0,0:0:0 - - - -
",
        breaks: None,
    },
    // data first, out of order
    RuleRow {
        trace: "1 0 axi 4 - +00000000,f,0,0:0:0 - - -
2 0 axi 4 - +00000000,f,1,0:0:0 - - -
3 0 axi 4 - +00000000,f,1,0:0:0 - - -
4 0 axi 4 +1,0,0,2,1,0,0:0:0 - - - -
",
        breaks: Some((2, 9)),
    },
    // valid lanes alone
    RuleRow {
        trace: "1 0 axi 4 +0,3,1,2,1,0,0:0:0 - - - -
2 0 axi 4 - +00000000,8,0,0:0:0 - - -
3 0 axi 4 - +00000000,f,1,0:0:0 - - -
",
        breaks: None,
    },
    // no strobe
    RuleRow {
        trace: "1 0 axi 4 +0,3,1,2,1,0,0:0:0 - - - -
2 0 axi 4 - +00000000,8,0,0:0:0 - - -
3 0 axi 4 - +00000000,0,1,0:0:0 - - -
",
        breaks: None,
    },
    // below the first lane
    RuleRow {
        trace: "1 0 axi 4 +0,3,1,2,1,0,0:0:0 - - - -
2 0 axi 4 - +00000000,4,0,0:0:0 - - -
",
        breaks: Some((2, 10)),
    },
    // told with the address
    RuleRow {
        trace: "1 0 axi 4 - +00000000,4,0,0:0:0 - - -
2 0 axi 4 - +00000000,f,1,0:0:0 - - -
3 0 axi 4 +0,3,1,2,1,0,0:0:0 - - - -
",
        breaks: Some((2, 10)),
    },
    // the least of two rules of data
    RuleRow {
        trace: "1 0 axi 4 +0,3,1,2,1,0,0:0:0 - - - -
2 0 axi 4 - +00000000,4,1,0:0:0 - - -
",
        breaks: Some((2, 9)),
    },
];

/// Rules 8, 11 and 12: what answers.
pub(super) static ANSWERS: [RuleRow; 20] = [
    // one round later
    RuleRow {
        trace: "1 0 axi 4 +2,0,0,2,1,0,0:0:0 - - - -
2 0 axi 4 - +00000000,f,1,0:0:0 - - -
3 0 axi 4 - - +2,0,0:0:0 - -
",
        breaks: None,
    },
    // a response after data that came first
    RuleRow {
        trace: "1 0 axi 4 - +00000000,f,1,0:0:0 - - -
2 0 axi 4 +2,0,0,2,1,0,0:0:0 - - - -
3 0 axi 4 - - +2,0,0:0:0 - -
",
        breaks: None,
    },
    // in the round of the data
    RuleRow {
        trace: "1 0 axi 4 +2,0,0,2,1,0,0:0:0 - - - -
2 0 axi 4 - +00000000,f,1,0:0:0 +2,0,0:0:0 - -
",
        breaks: Some((3, 11)),
    },
    // before the data
    RuleRow {
        trace: "1 0 axi 4 +2,0,0,2,1,0,0:0:0 - - - -
2 0 axi 4 - - +2,0,0:0:0 - -
",
        breaks: Some((3, 11)),
    },
    // without an address
    RuleRow {
        trace: "1 0 axi 4 - +00000000,f,1,0:0:0 - - -
2 0 axi 4 - - +2,0,0:0:0 - -
",
        breaks: Some((3, 11)),
    },
    // IDs in any order
    RuleRow {
        trace: "1 0 axi 4 +3,0,0,2,1,0,0:0:0 +00000000,f,1,0:0:0 - - -
2 0 axi 4 +2,0,0,2,1,0,0:0:0 +00000000,f,1,0:0:0 - - -
3 0 axi 4 - - +2,0,0:0:0 - -
4 0 axi 4 - - +3,0,0:0:0 - -
",
        breaks: None,
    },
    // twice
    RuleRow {
        trace: "1 0 axi 4 +3,0,0,2,1,0,0:0:0 +00000000,f,1,0:0:0 - - -
2 0 axi 4 +2,0,0,2,1,0,0:0:0 +00000000,f,1,0:0:0 - - -
3 0 axi 4 - - +2,0,0:0:0 - -
4 0 axi 4 - - +2,0,0:0:0 - -
",
        breaks: Some((3, 11)),
    },
    // EXOKAY on B
    RuleRow {
        trace: "1 0 axi 4 +2,0,0,2,1,0,0:0:0 +00000000,f,1,0:0:0 - - -
2 0 axi 4 - - +2,1,0:0:0 - -
",
        breaks: Some((3, 8)),
    },
    // EXOKAY on R
    RuleRow {
        trace: "1 0 axi 4 - - - +1,0,0,2,1,0,0:0:0 -
2 0 axi 4 - - - - +1,00000000,1,1,0:0:0
",
        breaks: Some((5, 8)),
    },
    // SLVERR
    RuleRow {
        trace: "1 0 axi 4 +2,0,0,2,1,0,0:0:0 +00000000,f,1,0:0:0 - - -
2 0 axi 4 - - +2,2,0:0:0 - -
",
        breaks: None,
    },
    // DECERR
    RuleRow {
        trace: "1 0 axi 4 +2,0,0,2,1,0,0:0:0 +00000000,f,1,0:0:0 - - -
2 0 axi 4 - - +2,3,0:0:0 - -
",
        breaks: None,
    },
    // a read beat one round later
    RuleRow {
        trace: "1 0 axi 4 - - - +1,0,0,2,1,0,0:0:0 -
2 0 axi 4 - - - - +1,00000000,0,1,0:0:0
",
        breaks: None,
    },
    // in the round of the address
    RuleRow {
        trace: "1 0 axi 4 - - - +1,0,0,2,1,0,0:0:0 =1,00000000,0,1,0:0:0
",
        breaks: Some((5, 11)),
    },
    // a beat too many
    RuleRow {
        trace: "1 0 axi 4 - - - +1,0,0,2,1,0,0:0:0 -
2 0 axi 4 - - - - +1,00000000,0,1,0:0:0
3 0 axi 4 - - - - +1,00000000,0,1,0:0:0
",
        breaks: Some((5, 11)),
    },
    // of another ID
    RuleRow {
        trace: "1 0 axi 4 - - - +1,0,0,2,1,0,0:0:0 -
2 0 axi 4 - - - - +2,00000000,0,1,0:0:0
",
        breaks: Some((5, 11)),
    },
    // RLAST too late
    RuleRow {
        trace: "1 0 axi 4 - - - +1,0,1,2,1,0,0:0:0 -
2 0 axi 4 - - - - +1,00000000,0,0,0:0:0
3 0 axi 4 - - - - +1,00000000,0,0,0:0:0
",
        breaks: Some((5, 12)),
    },
    // RLAST too early
    RuleRow {
        trace: "1 0 axi 4 - - - +1,0,1,2,1,0,0:0:0 -
2 0 axi 4 - - - - +1,00000000,0,1,0:0:0
",
        breaks: Some((5, 12)),
    },
    // two IDs
    RuleRow {
        trace: "1 0 axi 4 - - - +1,0,1,2,1,0,0:0:0 -
2 0 axi 4 - - - +2,0,0,2,1,0,0:0:0 -
3 0 axi 4 - - - - +1,00000000,0,0,0:0:0
4 0 axi 4 - - - - +2,00000000,0,1,0:0:0
5 0 axi 4 - - - - +1,00000000,0,1,0:0:0
",
        breaks: None,
    },
    // one ID in order
    RuleRow {
        trace: "1 0 axi 4 - - - +1,0,0,2,1,0,0:0:0 -
2 0 axi 4 - - - +1,0,1,2,1,0,0:0:0 -
3 0 axi 4 - - - - +1,00000000,0,1,0:0:0
4 0 axi 4 - - - - +1,00000000,0,0,0:0:0
5 0 axi 4 - - - - +1,00000000,0,1,0:0:0
",
        breaks: None,
    },
    // one ID out of order
    RuleRow {
        trace: "1 0 axi 4 - - - +1,0,0,2,1,0,0:0:0 -
2 0 axi 4 - - - +1,0,1,2,1,0,0:0:0 -
3 0 axi 4 - - - - +1,00000000,0,0,0:0:0
",
        breaks: Some((5, 12)),
    },
];
