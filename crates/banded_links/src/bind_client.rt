//! The calling side of a connection, as to bands.
ghost use Rattle.std.specs.Prelude.{◌≡◌, ◌==◌, IsSome, None, if◌then◌else◌};

use orb_base::Band;
use std::marker::Model;

/// The status of a reply by which a band is bound (CORBA 3.0.3, section 15.4.3).
pub const NO_EXCEPTION: u32 = 0;

/// The band that a connection has still to bind before its first call, if there is one.
#[derive(Clone, Copy, Debug)]
pub struct BindClient {
    band: Option<Band>,
}

impl Model for BindClient {
    ghost use Rattle.std.specs.Prelude.{Option};
    ghost use Rattle.orb_base.specs.Span.{Span};

    ghost Value = { Option Span };

    ghost view = { λ c. c.band };

    ghost inverse = { λ b. record { band = b } };
}

impl BindClient {
    /// A connection that is to bind this band, or none.
    pub fn new(band: Option<Band>) -> BindClient
        ensures { result ≡ band }
    {
        BindClient { band }
    }

    /// The band that is still to be bound.
    pub fn wants(&self) -> Option<Band>
        ensures { result ≡ self.now }
    {
        self.band
    }

    /// Takes the status of the reply to the bind, and tells whether the band is bound now. It is exactly where the status is
    /// `NO_EXCEPTION`, and then nothing is wanted any more; otherwise the band is still wanted.
    pub fn answered(&mut self, status: u32) -> bool
        requires { IsSome self.old }
        ensures bound { result ≡ (status == NO_EXCEPTION) }
        ensures wanted { self.new ≡ (if result then None else self.old) }
    {
        if status == NO_EXCEPTION {
            self.band = None;
            return true;
        }
        false
    }
}
