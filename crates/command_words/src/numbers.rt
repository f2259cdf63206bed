//! Numbers in words.
ghost use Rattle.std.specs.Prelude.{◌≡◌, option_map};
ghost use Rattle.command_words.specs.Numbers as Spec;

use client_mux::CallerCount;
use command_options::{MAX_DIGITS, number_of};
use load_runs::{FragmentLen, LoadCount};
use object_refs::port_number;
use orb_base::Priority;
use pipe_runs::Batch;
use server_runs::RunCount;

/// How many calls a group has: the number that the word is, 1 to 64 in 1 to 10 decimal digits, or 1 where there is no word. None
/// where the word is no such number.
pub(crate) fn batch_by(word: Option<&str>) -> Option<Batch>
    ensures { result ≡ Spec.batch_by (option_map (λ word. word.now) word.entry) }
{
    match word {
        Some(word) => {
            let number = port_number(word.as_bytes(), MAX_DIGITS)?;
            Batch::new(number)
        }
        None => Some(Batch::one()),
    }
}

/// How many runs are made at most: the number that the word is, 1 to 16 in 1 to 10 decimal digits, or 1 where there is no word. None
/// where the word is no such number.
pub(crate) fn runs_by(word: Option<&str>) -> Option<RunCount>
    ensures { result ≡ Spec.runs_by (option_map (λ word. word.now) word.entry) }
{
    match word {
        Some(word) => {
            let number = port_number(word.as_bytes(), MAX_DIGITS)?;
            RunCount::new(number)
        }
        None => Some(RunCount::one()),
    }
}

/// How many callers share a link: the number that the word is, 1 to 16 in 1 to 10 decimal digits, or none where there is no word. None
/// where the word is no such number.
pub(crate) fn callers_by(word: Option<&str>) -> Option<Option<CallerCount>>
    ensures { result ≡ Spec.callers_by (option_map (λ word. word.now) word.entry) }
{
    match word {
        Some(word) => {
            let number = port_number(word.as_bytes(), MAX_DIGITS)?;
            Some(Some(CallerCount::new(number)?))
        }
        None => Some(None),
    }
}

/// The priority of a number. None where it is above 32,767.
fn priority(number: u32) -> Option<Priority>
    ensures { result ≡ Spec.priority number }
{
    match i16::try_from(number) {
        Ok(level) => Priority::new(level),
        Err(_) => None,
    }
}

/// The priority that the word is, 0 to 32,767 in 1 to 10 decimal digits, or none where there is no word. None where the word is no such
/// number.
pub(crate) fn priority_by(word: Option<&str>) -> Option<Option<Priority>>
    ensures { result ≡ Spec.priority_by (option_map (λ word. word.now) word.entry) }
{
    match word {
        Some(word) => {
            let number = number_of(word)?;
            Some(Some(priority(number)?))
        }
        None => Some(None),
    }
}

/// How many requests a load has: the number that the word is, 1 to 65,536 in 1 to 10 decimal digits. None where the word is no such
/// number.
pub(crate) fn count_of(word: &str) -> Option<LoadCount>
    ensures { result ≡ Spec.count_of word.now }
{
    let number = number_of(word)?;
    LoadCount::new(number)
}

/// How long the pieces of a request are: the number that the word is, a multiple of 8 from 24 to 262,144 in 1 to 10 decimal digits, or
/// none where there is no word. None where the word is no such number.
pub(crate) fn fragment_by(word: Option<&str>) -> Option<Option<FragmentLen>>
    ensures { result ≡ Spec.fragment_by (option_map (λ word. word.now) word.entry) }
{
    match word {
        Some(word) => {
            let number = number_of(word)?;
            Some(Some(FragmentLen::new(number)?))
        }
        None => Some(None),
    }
}
