//! Why a request is refused.
ghost use Rattle.std.specs.Prelude.{◌≡◌};
ghost use Rattle.request_judge.specs.Answers as Spec;

use orb_base::{Completed, Sys, SysName, What};
use thiserror::Error;

/// Why a request is refused before it runs. The causes are tested in this order. All system exceptions are answered with
/// COMPLETED_NO; the minor codes are this project's own.
#[derive(Clone, Copy, Debug, PartialEq, Eq, Error)]
pub enum Refusal {
    /// The target is no object key: NEEDS_ADDRESSING_MODE.
    #[error("the target is no object key")]
    NoKey,
    /// A context that carries a priority or a band has no reading: MARSHAL, minor 2.
    #[error("a context of priorities has no reading")]
    BadContext,
    /// No object has the key: OBJECT_NOT_EXIST, minor 1.
    #[error("there is no such object")]
    UnknownObject,
    /// A request to bind a band carries none: MARSHAL, minor 2.
    #[error("a bind carries no band")]
    NoBand,
    /// No lane has a priority of the band that was to be bound: INV_POLICY, minor 5.
    #[error("no lane has a priority of the band")]
    BandWithoutLane,
    /// No row of the adapter's transform holds the priority that was sent: DATA_CONVERSION, minor 2.
    #[error("no row of the transform holds the priority")]
    NoTransform,
    /// The mandated priority isn't in the bound band: INV_POLICY, minor 4.
    #[error("the priority is outside the bound band")]
    OutsideBand,
    /// The mandated priority has no native one: DATA_CONVERSION, minor 1.
    #[error("the priority has no native one")]
    NoNative,
    /// No lane has the mandated priority: INV_POLICY, minor 3.
    #[error("no lane has the priority")]
    NoLane,
}

impl Refusal {
    /// What the client is given, where a reply is due.
    pub fn answer(self) -> What
        ensures { result ≡ Spec.answer_of self }
    {
        match self {
            Refusal::NoKey => What::Addressing,
            Refusal::BadContext => refused(SysName::Marshal, 2),
            Refusal::UnknownObject => refused(SysName::ObjectNotExist, 1),
            Refusal::NoBand => refused(SysName::Marshal, 2),
            Refusal::BandWithoutLane => refused(SysName::InvPolicy, 5),
            Refusal::NoTransform => refused(SysName::DataConversion, 2),
            Refusal::OutsideBand => refused(SysName::InvPolicy, 4),
            Refusal::NoNative => refused(SysName::DataConversion, 1),
            Refusal::NoLane => refused(SysName::InvPolicy, 3),
        }
    }
}

/// A system exception before the operation was begun.
fn refused(name: SysName, minor: u32) -> What
    ensures { result ≡ Spec.refused name minor }
{
    What::System(Sys {
        name,
        minor,
        completed: Completed::No,
    })
}
