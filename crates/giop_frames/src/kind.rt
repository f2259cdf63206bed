//! The kinds of messages.
ghost use Rattle.std.specs.Prelude.{◌≡◌};
ghost use Rattle.giop_frames.specs.Kinds as Spec;

/// A kind of message: CORBA 3.0.3, section 15.4.1.
#[derive(Clone, Copy, Debug, PartialEq, Eq)]
pub enum Kind {
    /// A request, of number 0.
    Request,
    /// A reply, of number 1.
    Reply,
    /// A request is given up: number 2.
    CancelRequest,
    /// A question where an object is: number 3.
    LocateRequest,
    /// Its answer: number 4.
    LocateReply,
    /// The server closes the connection: number 5.
    CloseConnection,
    /// The last message made no sense: number 6.
    MessageError,
    /// A further piece of a message: number 7.
    Fragment,
}

impl Kind {
    /// Its number, 0 to 7.
    pub fn number(self) -> u8
        ensures { result ≡ Spec.number self }
    {
        match self {
            Kind::Request => 0,
            Kind::Reply => 1,
            Kind::CancelRequest => 2,
            Kind::LocateRequest => 3,
            Kind::LocateReply => 4,
            Kind::CloseConnection => 5,
            Kind::MessageError => 6,
            Kind::Fragment => 7,
        }
    }

    /// The kind of a number. None where the number is above 7.
    #[tactic(auto, unfolding(crate::specs::Kinds::kind_by))]
    pub fn of_number(number: u8) -> Option<Kind>
        ensures { result ≡ Spec.kind_by number }
    {
        match number {
            0 => Some(Kind::Request),
            1 => Some(Kind::Reply),
            2 => Some(Kind::CancelRequest),
            3 => Some(Kind::LocateRequest),
            4 => Some(Kind::LocateReply),
            5 => Some(Kind::CloseConnection),
            6 => Some(Kind::MessageError),
            7 => Some(Kind::Fragment),
            _ => None,
        }
    }

    /// Whether such a message comes in one piece, never in fragments.
    #[tactic(auto, unfolding(crate::specs::Kinds::comes_whole))]
    pub(crate) fn comes_whole(self) -> bool
        ensures { result ≡ Spec.comes_whole (Spec.number self) }
    {
        matches!(
            self,
            Kind::CancelRequest | Kind::CloseConnection | Kind::MessageError
        )
    }

    /// Whether such a message may come in fragments.
    #[tactic(auto, unfolding(crate::specs::Kinds::is_long_kind))]
    pub(crate) fn is_long(self) -> bool
        ensures { result ≡ Spec.is_long_kind (Spec.number self) }
    {
        matches!(
            self,
            Kind::Request | Kind::Reply | Kind::LocateRequest | Kind::LocateReply
        )
    }
}
