//! The causes of refusals.

ghost use Rattle.std.specs.Prelude.{◌≡◌, ◌≤◌, length};
ghost use Rattle.refusals.specs.Cause.{cause_code, cause_name, cause_of_code, names_place};

/// Why an input is refused. Each cause has a code, its number from 1 in the order below, and a name.
#[derive(Debug, Clone, Copy, PartialEq, Eq)]
pub enum Cause {
    /// The input has more bytes than are taken.
    InputTooLong,
    /// The input isn't UTF-8.
    NotText,
    /// No line of the input is the one that parts its halves, `%%`.
    NoSeparator,
    /// The topology isn't TOML.
    TomlRefused,
    /// A table of the topology doesn't have the keys of its kind, or a key's value is none that it takes.
    BadKey,
    /// A node has the name of an earlier one.
    DuplicateName,
    /// A node names one that isn't there.
    UnknownName,
    /// A manager has a node above it, or one that can't join inputs has two.
    FanIn,
    /// A node other than a manager has none above it.
    Loose,
    /// A node stands on a cycle.
    Cycle,
    /// A region or a range of addresses is empty, isn't made of whole units, or ends too high.
    BadRegion,
    /// Two regions of a node share an address.
    Overlap,
    /// A node's bus doesn't fit the links above it.
    WidthMismatch,
    /// A node would widen IDs past 16 bits.
    IdOverflow,
    /// AXI4 and AXI4-Lite meet at a node that doesn't translate between them.
    LiteMismatch,
    /// A node is one too many, or has too many of something.
    TooLarge,
    /// A line of traffic is of none of the forms.
    BadLine,
    /// A line of traffic names a manager that isn't there.
    UnknownManager,
    /// A line of traffic has an ID that is too large for its manager.
    BadId,
    /// A line of traffic asks for a burst that breaks a rule of the standard.
    IllegalBurst,
    /// There are more transactions or beats than are taken.
    TooMuchTraffic,
    /// A line is none that a trace may have there.
    BadTraceLine,
    /// Something is asked for that the program doesn't have yet.
    NotBuilt,
    /// The first line of a guard's input isn't of its form.
    BadGuard,
    /// A line for a rogue subordinate isn't of its form.
    BadRogue,
    /// No trace stands behind the traffic.
    NoTrace,
}

// All causes in order of code.
static CAUSES: [Cause; 26] = [
    Cause::InputTooLong,
    Cause::NotText,
    Cause::NoSeparator,
    Cause::TomlRefused,
    Cause::BadKey,
    Cause::DuplicateName,
    Cause::UnknownName,
    Cause::FanIn,
    Cause::Loose,
    Cause::Cycle,
    Cause::BadRegion,
    Cause::Overlap,
    Cause::WidthMismatch,
    Cause::IdOverflow,
    Cause::LiteMismatch,
    Cause::TooLarge,
    Cause::BadLine,
    Cause::UnknownManager,
    Cause::BadId,
    Cause::IllegalBurst,
    Cause::TooMuchTraffic,
    Cause::BadTraceLine,
    Cause::NotBuilt,
    Cause::BadGuard,
    Cause::BadRogue,
    Cause::NoTrace,
];

impl Cause {
    /// The number of the cause, from 1 to 26.
    pub fn code(self) -> u8
        ensures { result ≡ cause_code self }
    {
        match self {
            Cause::InputTooLong => 1,
            Cause::NotText => 2,
            Cause::NoSeparator => 3,
            Cause::TomlRefused => 4,
            Cause::BadKey => 5,
            Cause::DuplicateName => 6,
            Cause::UnknownName => 7,
            Cause::FanIn => 8,
            Cause::Loose => 9,
            Cause::Cycle => 10,
            Cause::BadRegion => 11,
            Cause::Overlap => 12,
            Cause::WidthMismatch => 13,
            Cause::IdOverflow => 14,
            Cause::LiteMismatch => 15,
            Cause::TooLarge => 16,
            Cause::BadLine => 17,
            Cause::UnknownManager => 18,
            Cause::BadId => 19,
            Cause::IllegalBurst => 20,
            Cause::TooMuchTraffic => 21,
            Cause::BadTraceLine => 22,
            Cause::NotBuilt => 23,
            Cause::BadGuard => 24,
            Cause::BadRogue => 25,
            Cause::NoTrace => 26,
        }
    }

    /// The name of the cause, as the line of a refusal has it: at most 14 bytes.
    pub fn name(self) -> &'static str
        ensures name { result.now ≡ cause_name self }
        ensures short { length result.now ≤ 14 }
    {
        match self {
            Cause::InputTooLong => "InputTooLong",
            Cause::NotText => "NotText",
            Cause::NoSeparator => "NoSeparator",
            Cause::TomlRefused => "TomlRefused",
            Cause::BadKey => "BadKey",
            Cause::DuplicateName => "DuplicateName",
            Cause::UnknownName => "UnknownName",
            Cause::FanIn => "FanIn",
            Cause::Loose => "Loose",
            Cause::Cycle => "Cycle",
            Cause::BadRegion => "BadRegion",
            Cause::Overlap => "Overlap",
            Cause::WidthMismatch => "WidthMismatch",
            Cause::IdOverflow => "IdOverflow",
            Cause::LiteMismatch => "LiteMismatch",
            Cause::TooLarge => "TooLarge",
            Cause::BadLine => "BadLine",
            Cause::UnknownManager => "UnknownManager",
            Cause::BadId => "BadId",
            Cause::IllegalBurst => "IllegalBurst",
            Cause::TooMuchTraffic => "TooMuchTraffic",
            Cause::BadTraceLine => "BadTraceLine",
            Cause::NotBuilt => "NotBuilt",
            Cause::BadGuard => "BadGuard",
            Cause::BadRogue => "BadRogue",
            Cause::NoTrace => "NoTrace",
        }
    }

    /// Whether a refusal for this cause names the line or the node that it is found at.
    pub fn names_place(self) -> bool
        ensures { result ≡ names_place self }
    {
        !matches!(
            self,
            Cause::InputTooLong
                | Cause::NotText
                | Cause::NoSeparator
                | Cause::TomlRefused
                | Cause::TooMuchTraffic
                | Cause::BadGuard
                | Cause::NoTrace
        )
    }

    /// The cause with this code; `None` where no cause has it.
    pub fn from_code(code: u8) -> Option<Cause>
        ensures { result ≡ cause_of_code code }
    {
        CAUSES.iter().copied().find(|cause| cause.code() == code)
    }
}
