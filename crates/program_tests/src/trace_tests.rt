//! Traced runs and judged traces through the top call.

use crate::test_rows::{MEMORY, Row, compare, judged};
use axi_program::Status;
use refusals::{Cause, Refusal};
use std::test::Fail;
use trace_judge::TraceFault;

fn a_traced_run() -> Row {
    Row {
        words: &["axinet", "run", "--trace=all"],
        topology: MEMORY,
        input: b"%%\nwrite m 1 0x10 4 incr 11223344\nwait m\nread m 2 0x10 4 incr 1\n",
        status: Status::Done,
        written: b"2 0 axi 4 +1,10,0,2,1,0,1:0:0 - - - -
3 0 axi 4 - +11223344,f,1,1:0:0 - - -
5 0 axi 4 - - +1,0,1:0:0 - -
7 0 axi 4 - - - +2,10,0,2,1,0,2:0:0 -
9 0 axi 4 - - - - +2,11223344,0,1,2:0:0
%%
1 write m 1 5 okay
2 read m 6 9 okay:11223344
rounds 9
",
    }
}

// Below an up converter the bytes of a beat stand on other lanes.
fn a_wider_bus() -> Row {
    Row {
        words: &["axinet", "run", "--trace=all"],
        topology: b"version = 1
node = [
 {name=\"m\", kind=\"manager\", bus=4, id_width=1, to=\"u\"},
 {name=\"u\", kind=\"up\", bus=8, to=\"ram\"},
 {name=\"ram\", kind=\"memory\", bus=8, base=0, size=4096},
]
",
        input: b"%%\nwrite m 0 0x4 4 incr 01020304\n",
        status: Status::Done,
        written: b"2 0 axi 4 +0,4,0,2,1,0,1:0:0 - - - -
3 0 axi 4 - +01020304,f,1,1:0:0 - - -
3 1 axi 8 +0,4,0,2,1,0,1:0:0 - - - -
4 1 axi 8 - +0000000001020304,f0,1,1:0:0 - - -
6 1 axi 8 - - +0,0,1:0:0 - -
7 0 axi 4 - - +0,0,1:0:0 - -
%%
1 write m 1 7 okay
rounds 7
",
    }
}

// A Lite bridge makes two words of a burst of two bytes, and the tags tell which byte of each is wanted.
const BRIDGED: &[u8] = b"version = 1
node = [
 {name=\"m\", kind=\"manager\", bus=4, id_width=4, to=\"lb\"},
 {name=\"lb\", kind=\"lite\", to=\"lm\"},
 {name=\"lm\", kind=\"lite_memory\", base=0, size=4096, fill=171},
]
";

fn a_lite_memory() -> Row {
    Row {
        words: &["axinet", "run", "--trace=all"],
        topology: BRIDGED,
        input: b"%%\nread m 3 0x2 1 incr 2\n",
        status: Status::Done,
        written: b"2 0 axi 4 - - - +3,2,1,0,1,0,1:0:0 -
3 1 axi 4 - - - +3,2,0,0,1,0,1:0:0 -
4 1 axi 4 - - - +3,3,0,0,1,0,1:0:0 -
4 2 lite 4 - - - +0,0,0,2,1,0,1:2:2 -
5 2 lite 4 - - - +0,0,0,2,1,0,1:3:3 -
6 2 lite 4 - - - - +0,abababab,0,1,1:2:2
7 1 axi 4 - - - - +3,abababab,0,1,1:0:0
7 2 lite 4 - - - - +0,abababab,0,1,1:3:3
8 0 axi 4 - - - - +3,abababab,0,0,1:0:0
8 1 axi 4 - - - - +3,abababab,0,1,1:0:0
9 0 axi 4 - - - - +3,abababab,0,1,1:0:0
%%
1 read m 1 9 okay:ab okay:ab
rounds 9
",
    }
}

fn its_trace() -> Row {
    judged(a_lite_memory().written, Status::Done, b"legal 11\n")
}

fn a_run_without_traffic() -> Row {
    Row {
        words: &["axinet", "run", "--trace=all"],
        topology: MEMORY,
        input: b"%%\n",
        status: Status::Done,
        written: b"%%\nrounds 0\n",
    }
}

fn a_run_without_a_trace() -> Row {
    Row {
        words: &["axinet", "run", "--trace=none"],
        topology: MEMORY,
        input: b"%%\n",
        status: Status::Done,
        written: b"rounds 0\n",
    }
}

fn an_unknown_option() -> Row {
    Row {
        words: &["axinet", "run", "--trace=some"],
        topology: MEMORY,
        input: b"%%\n",
        status: Status::Usage,
        written: b"",
    }
}

fn a_legal_trace() -> Row {
    judged(a_traced_run().written, Status::Done, b"legal 5\n")
}

fn a_payload_that_changes() -> Row {
    let fault = TraceFault {
        line: 2,
        round: 2,
        link: 0,
        channel: 1,
        rule: 2,
    };
    judged(
        b"1 0 axi 4 =0,10,0,2,1,0,1:0:0 - - - -\n2 0 axi 4 +0,14,0,2,1,0,1:0:0 - - - -\n",
        Status::Broken(fault),
        b"broken 2 2 0 aw 2\n",
    )
}

fn an_offer_that_is_withdrawn() -> Row {
    let fault = TraceFault {
        line: 0,
        round: 2,
        link: 0,
        channel: 1,
        rule: 1,
    };
    judged(
        b"1 0 axi 4 =0,10,0,2,1,0,1:0:0 - - - -\r\n3 0 axi 4 +0,10,0,2,1,0,1:0:0 - - - -\r\n",
        Status::Broken(fault),
        b"broken 0 2 0 aw 1\n",
    )
}

fn no_trace_line() -> Row {
    judged(
        b"x\n",
        Status::Refused(Refusal::at(Cause::BadTraceLine, 1)),
        b"refused 22 BadTraceLine 1\n",
    )
}

fn a_lite_port() -> Row {
    let fault = TraceFault {
        line: 2,
        round: 1,
        link: 1,
        channel: 1,
        rule: 3,
    };
    judged(
        b"1 0 axi 4 +1,10,0,2,1,0,1:0:0 - - - -\n1 1 lite 4 +1,10,0,2,1,0,1:0:3 - - - -\n",
        Status::Broken(fault),
        b"broken 2 1 1 aw 3\n",
    )
}

fn no_text() -> Row {
    judged(
        b"1 0 axi 4 \xff\n",
        Status::Refused(Refusal::new(Cause::NotText)),
        b"refused 2 NotText\n",
    )
}

fn the_greatest_round() -> Row {
    judged(
        b"9223372036854775807 0 axi 4 +0,10,0,2,1,0,1:0:0 - - - -\n",
        Status::Done,
        b"legal 1\n",
    )
}

fn one_round_more() -> Row {
    judged(
        b"9223372036854775808 0 axi 4 +0,10,0,2,1,0,1:0:0 - - - -\n",
        Status::Refused(Refusal::at(Cause::BadTraceLine, 1)),
        b"refused 22 BadTraceLine 1\n",
    )
}

#[test]
fn runs_are_traced(rt: HostRuntime) -> Result<(), Fail> {
    compare(&rt, &a_traced_run())?;
    compare(&rt, &a_wider_bus())?;
    compare(&rt, &a_lite_memory())?;
    compare(&rt, &a_run_without_traffic())?;
    compare(&rt, &a_run_without_a_trace())?;
    compare(&rt, &an_unknown_option())
}

#[test]
fn traces_are_judged(rt: HostRuntime) -> Result<(), Fail> {
    compare(&rt, &a_legal_trace())?;
    compare(&rt, &its_trace())?;
    compare(&rt, &a_payload_that_changes())?;
    compare(&rt, &an_offer_that_is_withdrawn())?;
    compare(&rt, &no_trace_line())?;
    compare(&rt, &a_lite_port())?;
    compare(&rt, &no_text())?;
    compare(&rt, &the_greatest_round())?;
    compare(&rt, &one_round_more())
}
