ghost use Rattle.std.specs.Prelude.{◌≡◌, IfOk, IfSome, Some, None, Ok};
ghost use Rattle.smf_contract.specs.Cookies.{bits_of_cookie, cookie_of_bits};

use smf_fmri::limits::{MAX_INSTANCE, MAX_RUN};
use thiserror::Error;

/// The kind of a method: start, stop or refresh.
#[derive(Clone, Copy, PartialEq, Eq)]
pub enum Method {
    Start,
    Stop,
    Refresh,
}

/// A restarter writes this into the cookie of a contract, so as to know it again: the instance, its run, and the
/// method.
#[derive(Clone, Copy, PartialEq, Eq)]
pub struct Cookie {
    pub instance: u64,
    pub run: u64,
    pub method: Method,
}

/// Why a cookie has no form in 64 bits.
#[derive(Clone, Copy, Debug, PartialEq, Eq, Error)]
pub enum CookieFault {
    /// The instance is past 16777215, or the run past 274877906943.
    #[error("out of range")]
    Range,
}

impl Cookie {
    /// The cookie's 64 bits: the instance in bits 63 to 40, the run in 39 to 2, the method in 1 and 0.
    pub fn pack(self) -> Result<u64, CookieFault>
        ensures exact { result ≡ bits_of_cookie self }
        ensures back { IfOk result (λ bits. cookie_of_bits bits ≡ Some self) }
    {
        if self.instance > MAX_INSTANCE || self.run > MAX_RUN {
            return Err(CookieFault::Range);
        }
        let method = match self.method {
            Method::Start => 0,
            Method::Stop => 1,
            Method::Refresh => 2,
        };
        Ok((self.instance << 40) + (self.run << 2) + method)
    }

    /// Reads a cookie from its 64 bits. There is none if the last two bits name no method.
    pub fn unpack(bits: u64) -> Option<Cookie>
        ensures exact { result ≡ cookie_of_bits bits }
        ensures back { IfSome result (λ cookie. bits_of_cookie cookie ≡ Ok bits) }
    {
        let method = match bits % 4 {
            0 => Method::Start,
            1 => Method::Stop,
            2 => Method::Refresh,
            _ => return None,
        };
        Some(Cookie {
            instance: bits >> 40,
            run: bits % (1 << 40) / 4,
            method,
        })
    }
}
