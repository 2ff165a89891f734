//! The response of a transaction.

ghost use Rattle.std.specs.Prelude.{◌≡◌};
ghost use Rattle.axi_beats.specs.Codes.{response_code, response_of_code};
ghost use Rattle.axi_beats.specs.Response.{worst_of};

/// A response, from good to bad. EXOKAY, the answer to an exclusive access, isn't among them:
/// there are no exclusive accesses here. (Arm IHI 0022, read and write response structure.)
#[derive(Clone, Copy, Debug, PartialEq, Eq, Default)]
pub enum Resp {
    /// OKAY: the access was done.
    #[default]
    Okay,
    /// SLVERR: the subordinate was reached and refused.
    SlvErr,
    /// DECERR: no subordinate has the address.
    DecErr,
}

impl Resp {
    /// BRESP or RRESP of this response: 0 OKAY, 2 SLVERR, 3 DECERR.
    pub fn code(self) -> u8
        ensures { result ≡ response_code self }
    {
        match self {
            Resp::Okay => 0,
            Resp::SlvErr => 2,
            Resp::DecErr => 3,
        }
    }

    /// The response with this code on BRESP or RRESP. Code 1 is EXOKAY, which has none here.
    pub fn from_code(code: u8) -> Option<Resp>
        ensures { result ≡ response_of_code code }
    {
        match code {
            0 => Some(Resp::Okay),
            2 => Some(Resp::SlvErr),
            3 => Some(Resp::DecErr),
            _ => None,
        }
    }
}

/// The worse of two responses: DECERR over SLVERR over OKAY.
pub fn worst(a: Resp, b: Resp) -> Resp
    ensures { result ≡ worst_of a b }
{
    match (a, b) {
        (Resp::DecErr, _) | (_, Resp::DecErr) => Resp::DecErr,
        (Resp::SlvErr, _) | (_, Resp::SlvErr) => Resp::SlvErr,
        (Resp::Okay, Resp::Okay) => Resp::Okay,
    }
}
