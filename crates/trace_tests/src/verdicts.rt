//! Traces judged by hand.

use answer_rows::{ANSWERS, DATA};
use lite_rows::{LITE_BEATS, LITE_HANDSHAKES};
use rule_rows::{ADDRESSES, HANDSHAKES, RuleRow};
use std::process::Abort;
use std::test::Fail;
use trace_judge::{TraceFault, Verdict, judge};

mod answer_rows;
mod lite_rows;
mod rule_rows;

/// A trace and the verdict on it.
#[derive(Clone, Copy)]
struct Row {
    trace: &'static str,
    verdict: Verdict,
}

fn broken(line: u32, round: u64, link: u32, channel: u8, rule: u8) -> Verdict {
    Verdict::Broken(TraceFault {
        line,
        round,
        link,
        channel,
        rule,
    })
}

// ---- rounds without a line

fn an_offer_withdrawn_in_a_round_without_a_line() -> Row {
    Row {
        trace: "1 0 axi 4 =0,10,0,2,1,0,1:0:0 - - - -\n3 0 axi 4 +0,10,0,2,1,0,1:0:0 - - - -\n",
        verdict: broken(0, 2, 0, 1, 1),
    }
}

fn an_offer_withdrawn_on_a_link_that_has_no_more_lines() -> Row {
    Row {
        trace: "1 7 axi 4 - - - =0,10,0,2,1,0,1:0:0 -\r\n9000000000000000000 3 axi 8 - - - - -\r\n",
        verdict: broken(0, 2, 7, 4, 1),
    }
}

// ---- several links, and lines that are refused

fn the_earlier_round_is_told() -> Row {
    Row {
        trace: "1 4 axi 4 =0,10,0,2,1,0,1:0:0 - - - -\n3 2 axi 4 +0,10,0,2,1,1,1:0:0 - - - -\n9 4 axi 4 - - - - -\n",
        verdict: broken(0, 2, 4, 1, 1),
    }
}

fn the_lesser_link_is_told() -> Row {
    Row {
        trace: "1 2 axi 4 =0,10,0,2,1,0,1:0:0 - - - -\n2 1 axi 4 - - - +0,10,0,2,1,1,1:0:0 -\n2 2 axi 4 - - - - -\n",
        verdict: broken(2, 2, 1, 4, 8),
    }
}

fn a_refused_line_is_told_before_a_broken_rule() -> Row {
    Row {
        trace: "1 0 axi 4 +0,0,0,2,3,0,1:0:0 - - - -\n1 0 axi 4 +0,0,0,2,3,0,1:0:0 - - - -\nx\n",
        verdict: Verdict::BadTraceLine { line: 2 },
    }
}

fn no_trace_line() -> Row {
    Row {
        trace: "x",
        verdict: Verdict::BadTraceLine { line: 1 },
    }
}

fn a_round_that_is_too_great() -> Row {
    Row {
        trace: "9223372036854775808 0 axi 4 - +00000000,0,1,1:0:0 - - -\n",
        verdict: Verdict::BadTraceLine { line: 1 },
    }
}

/// ID 1 breaks a rule on AXI4-Lite alone; of two broken rules that of the lesser link is told.
fn ports_of_both_kinds() -> Row {
    Row {
        trace: "1 0 axi 4 +1,0,0,2,1,0,1:0:0 - - - -\n1 1 lite 4 +1,0,0,2,1,0,1:0:3 - - - -\n1 2 axi 4 +0,0,255,2,2,0,1:0:0 - - - -\n",
        verdict: broken(2, 1, 1, 1, 3),
    }
}

fn a_link_of_another_kind() -> Row {
    Row {
        trace: "1 0 axi 4 - - - - -\n2 0 lite 4 - - - - -\n",
        verdict: Verdict::BadTraceLine { line: 2 },
    }
}

// ---- legal traces

fn a_write_and_a_read_of_a_word() -> Row {
    Row {
        trace: "2 0 axi 4 +1,10,0,2,1,0,1:0:0 - - - -
3 0 axi 4 - +11223344,f,1,1:0:0 - - -
5 0 axi 4 - - +1,0,1:0:0 - -
7 0 axi 4 - - - +2,10,0,2,1,0,2:0:0 -
9 0 axi 4 - - - - +2,11223344,0,1,2:0:0
%%
1 write m 1 5 okay
2 read m 6 9 okay:11223344
rounds 9
",
        verdict: Verdict::Legal { lines: 5 },
    }
}

fn the_greatest_round() -> Row {
    Row {
        trace: "9223372036854775807 0 axi 4 - +00000000,0,1,1:0:0 - - -\n",
        verdict: Verdict::Legal { lines: 1 },
    }
}

fn no_line() -> Row {
    Row {
        trace: "",
        verdict: Verdict::Legal { lines: 0 },
    }
}

/// Fails where the judge says anything else.
fn compare(rt: &(impl Alloc<A = std::alloc::Global> + Abort), row: &Row) -> Result<(), Fail> {
    assert!(rt; row.trace.len() <= 16_777_216);
    let verdict = judge(rt.alloc(), row.trace)?;
    assert_eq!(rt; verdict, row.verdict, "at {}", row.trace);
    Ok(())
}

/// The verdict on a row: its last line breaks the rule, if one does.
fn verdict_on(row: &RuleRow) -> Verdict {
    let lines = u32::try_from(row.trace.lines().count()).unwrap_or(0);
    match row.breaks {
        Some((channel, rule)) => broken(lines, u64::from(lines), 0, channel, rule),
        None => Verdict::Legal { lines },
    }
}

#[test]
fn each_rule_is_told(rt: HostRuntime) -> Result<(), Fail> {
    for rows in [&HANDSHAKES[..], &ADDRESSES[..], &DATA[..], &ANSWERS[..]] {
        for row in rows {
            let trace = row.trace;
            let verdict = verdict_on(row);
            compare(&rt, &Row { trace, verdict })?;
        }
    }
    Ok(())
}

#[test]
fn each_rule_of_axi4_lite_is_told(rt: HostRuntime) -> Result<(), Fail> {
    for rows in [&LITE_HANDSHAKES[..], &LITE_BEATS[..]] {
        for row in rows {
            let trace = row.trace;
            let verdict = verdict_on(row);
            compare(&rt, &Row { trace, verdict })?;
        }
    }
    Ok(())
}

#[test]
fn rounds_without_a_line_are_judged(rt: HostRuntime) -> Result<(), Fail> {
    compare(&rt, &an_offer_withdrawn_in_a_round_without_a_line())?;
    compare(&rt, &an_offer_withdrawn_on_a_link_that_has_no_more_lines())
}

#[test]
fn traces_of_several_links_are_judged(rt: HostRuntime) -> Result<(), Fail> {
    compare(&rt, &the_earlier_round_is_told())?;
    compare(&rt, &the_lesser_link_is_told())?;
    compare(&rt, &a_refused_line_is_told_before_a_broken_rule())?;
    compare(&rt, &no_trace_line())?;
    compare(&rt, &a_round_that_is_too_great())?;
    compare(&rt, &ports_of_both_kinds())?;
    compare(&rt, &a_link_of_another_kind())
}

#[test]
fn legal_traces_are_accepted(rt: HostRuntime) -> Result<(), Fail> {
    compare(&rt, &a_write_and_a_read_of_a_word())?;
    compare(&rt, &the_greatest_round())?;
    compare(&rt, &no_line())
}
