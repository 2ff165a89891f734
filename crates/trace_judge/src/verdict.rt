//! What a judge says of a trace.

/// The rule that a trace breaks first: in the least round, there on the least link.
#[derive(Clone, Copy, Debug, PartialEq, Eq)]
pub struct TraceFault {
    /// The number of the line of that round and link, from 1, or 0 where there is none.
    pub line: u32,
    /// The round, from 1.
    pub round: u64,
    /// The link, below 4096.
    pub link: u32,
    /// The least channel on which a rule is broken: 1 AW, 2 W, 3 B, 4 AR, 5 R.
    pub channel: u8,
    /// The least rule that is broken there, from 1 to 12, on an AXI4-Lite port from 1 to 6.
    pub rule: u8,
}

/// What is said of a trace. Lines are numbered from 1.
#[derive(Clone, Copy, Debug, PartialEq, Eq)]
pub enum Verdict {
    /// Every port keeps the rules; the number of lines.
    Legal { lines: u32 },
    /// Some port breaks a rule; the first fault.
    Broken(TraceFault),
    /// The least line that is refused: it is no trace line, doesn't come after the line before, or shows another port
    /// than an earlier line of its link.
    BadTraceLine { line: u32 },
}
