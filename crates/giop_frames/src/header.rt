//! The header of a piece: CORBA 3.0.3, section 15.4.1.
ghost use Rattle.std.specs.Prelude.{◌≡◌, ◌≤◌, ◌+◌, length, Some, None, Ok, IfOk, IfErr};
ghost use Rattle.giop_frames.specs.Kinds.{number, is_kind};
ghost use Rattle.giop_frames.specs.Pieces as Spec;
ghost use Rattle.giop_frames.specs.Headers as Rule;
ghost use Rattle.giop_frames.specs.Headers.{BeginsWith, header_at};
ghost use Rattle.giop_frames.specs.Stream.{header_cause};

use crate::fault::FrameCause;
use crate::kind::Kind;
use cdr_core::u32_of;
use orb_base::Order;

/// The length of a header in bytes.
pub(crate) const HEADER: usize = 12;

/// What every header begins with.
const MAGIC: &[u8] = b"GIOP";

/// What a header of 12 bytes says of its piece, after its magic and its version.
#[derive(Clone, Copy)]
pub(crate) struct Header {
    /// The byte order of the piece, by bit 0 of the flags.
    pub order: Order,
    /// Whether fragments follow, by bit 1 of the flags.
    pub more: bool,
    /// The kind of message.
    pub kind: Kind,
    /// How many bytes are after the header.
    pub size: u32,
}

impl Header {
    /// Reads the header at the front of the bytes, or tells the first rule that it breaks.
    #[tactic(auto, unfolding(crate::specs::Headers::header_at))]
    pub fn read(bytes: &[u8]) -> Result<Header, FrameCause>
        requires { 12 ≤ length bytes.now }
        ensures { result ≡ header_at bytes.now }
    {
        if !has_magic(bytes) {
            return Err(FrameCause::BadMagic);
        }
        if !has_version(bytes) {
            return Err(FrameCause::BadVersion);
        }
        match Kind::of_number(kind_of(bytes)) {
            None => Err(FrameCause::BadType),
            Some(kind) => Ok(Header {
                order: order_of(bytes),
                more: has_more(bytes),
                kind,
                size: size_of(bytes),
            }),
        }
    }

    /// The length of its piece in bytes, its own included.
    pub fn piece_len(self) -> usize
        ensures { result ≡ 12 + self.size }
    {
        HEADER + self.size as usize
    }

    /// Whether its piece is of this kind.
    pub fn is(self, kind: Kind) -> bool
        ensures { result ≡ is_kind kind (number self.kind) }
    {
        self.kind.number() == kind.number()
    }

    /// The id of its piece, a Fragment or a message that fragments follow: the 4 bytes after the header.
    #[tactic(auto, unfolding(crate::specs::Pieces::id_of))]
    pub fn id_of(self, bytes: &[u8]) -> u32
        requires header { BeginsWith self bytes.now }
        requires long { 16 ≤ length bytes.now }
        ensures { result ≡ Spec.id_of bytes.now }
    {
        u32_of(self.order, &bytes[12..16])
    }
}

/// The header of a piece under a limit on its length in bytes, or the first rule that it breaks.
#[tactic(auto, unfolding(crate::specs::Stream::header_cause), using(crate::proofs::Heads::begins))]
pub(crate) fn judged(limit: usize, bytes: &[u8]) -> Result<Header, FrameCause>
    requires { 12 ≤ length bytes.now }
    ensures sound { IfOk result (λ h. header_cause limit bytes.now ≡ None) }
    ensures value { IfOk result (λ h. header_at bytes.now ≡ Ok h) }
    ensures begins { IfOk result (λ h. BeginsWith h bytes.now) }
    ensures cause { IfErr result (λ cause. header_cause limit bytes.now ≡ Some cause) }
{
    match Header::read(bytes) {
        Err(cause) => Err(cause),
        Ok(header) => {
            if header.piece_len() > limit {
                Err(FrameCause::TooLong)
            } else {
                Ok(header)
            }
        }
    }
}

/// The byte order, by bit 0 of the flags.
#[tactic(auto, unfolding(crate::specs::Pieces::order_of))]
pub(crate) fn order_of(bytes: &[u8]) -> Order
    requires { 12 ≤ length bytes.now }
    ensures { result ≡ Spec.order_of bytes.now }
{
    if bytes[6] % 2 == 1 {
        Order::Little
    } else {
        Order::Big
    }
}

/// Whether fragments follow, by bit 1 of the flags.
#[tactic(auto, unfolding(crate::specs::Pieces::has_more))]
fn has_more(bytes: &[u8]) -> bool
    requires { 12 ≤ length bytes.now }
    ensures { result ≡ Spec.has_more bytes.now }
{
    bytes[6] / 2 % 2 == 1
}

/// The number of the kind of message.
#[tactic(auto, unfolding(crate::specs::Pieces::kind_of))]
pub(crate) fn kind_of(bytes: &[u8]) -> u8
    requires { 12 ≤ length bytes.now }
    ensures { result ≡ Spec.kind_of bytes.now }
{
    bytes[7]
}

/// How many bytes are after the header.
fn size_of(bytes: &[u8]) -> u32
    requires { 12 ≤ length bytes.now }
    ensures { result ≡ Spec.size_of bytes.now }
{
    u32_of(order_of(bytes), &bytes[8..12])
}

/// The length of the piece in bytes, by its header.
#[tactic(auto, unfolding(crate::specs::Pieces::piece_len))]
pub(crate) fn piece_len(bytes: &[u8]) -> usize
    requires { 12 ≤ length bytes.now }
    ensures { result ≡ Spec.piece_len bytes.now }
{
    HEADER + size_of(bytes) as usize
}

/// Whether the bytes begin as every header does.
#[tactic(auto, unfolding(crate::specs::Headers::has_magic))]
fn has_magic(bytes: &[u8]) -> bool
    ensures { result ≡ Rule.has_magic bytes.now }
{
    bytes.starts_with(MAGIC)
}

/// Whether the version is 1.2.
#[tactic(auto, unfolding(crate::specs::Headers::has_version))]
fn has_version(bytes: &[u8]) -> bool
    requires { 12 ≤ length bytes.now }
    ensures { result ≡ Rule.has_version bytes.now }
{
    bytes[4] == 1 && bytes[5] == 2
}
