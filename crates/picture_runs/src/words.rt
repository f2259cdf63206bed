//! What the words ask for.
ghost use Rattle.std.specs.Prelude.{◌≡◌, map, option_map, string_bytes, IfOk};
ghost use Rattle.command_options.specs.Found.{given_by};
ghost use Rattle.command_options.specs.Given.{given};
ghost use Rattle.command_options.specs.Uses.{reading};
ghost use Rattle.picture_runs.specs.Asking as Spec;

use crate::asked::Asked;
use command_options::{Item, Kind, Options, has_nul, number_of, read_options};
use orb_base::NoMemory;
use std::alloc::Global;
use std::convert::AsStr;
use trace_picture::{MAX_DRAWN, View};

// `[RUN] [--from N] [--entries N] [--table]`
static ITEMS: [Item<'static>; 4] = [
    Item {
        name: "run",
        kind: Kind::Positional(1),
        is_due: false,
    },
    Item {
        name: "from",
        kind: Kind::Valued,
        is_due: false,
    },
    Item {
        name: "entries",
        kind: Kind::Valued,
        is_due: false,
    },
    Item {
        name: "table",
        kind: Kind::Switch,
        is_due: false,
    },
];

/// The number that the word is, or this one where there is no word.
fn number_or(other: u32, word: Option<&str>) -> Option<u32>
    ensures { result ≡ Spec.number_or other (option_map (λ word. word.now) word.entry) }
{
    match word {
        Some(word) => number_of(word),
        None => Some(other),
    }
}

/// A picture of a run, from an entry on.
fn picture_by(run: Option<u32>, from: Option<u32>, entries: Option<u32>) -> Option<Asked>
    ensures { result ≡ Spec.picture_by run from entries }
{
    match (run, from, entries) {
        (Some(run), Some(from), Some(entries)) => {
            Some(Asked::Picture(View { run, from, entries }))
        }
        _ => None,
    }
}

/// The table of a run, which is of all its entries.
fn table_by(run: Option<u32>, from: Option<&str>, entries: Option<&str>) -> Option<Asked>
    ensures { result ≡ Spec.table_by run (option_map (λ word. word.now) from.entry) (option_map (λ word. word.now) entries.entry) }
{
    match (from, entries) {
        (None, None) => match run {
            Some(run) => Some(Asked::Table(run)),
            None => None,
        },
        _ => None,
    }
}

/// What is asked for by what the words give.
fn asked_by(options: &Options<'_>) -> Option<Asked>
    ensures { result ≡ Spec.asked_by (given_by options.now) }
{
    let run = number_or(0, options.value("run"));
    if options.has("table") {
        return table_by(run, options.value("from"), options.value("entries"));
    }
    let from = number_or(0, options.value("from"));
    let entries = number_or(MAX_DRAWN, options.value("entries"));
    picture_by(run, from, entries)
}

/// What the words give the items.
fn read_items<'a, S: AsStr>(alloc: Global, words: &'a [S]) -> Result<Option<Options<'a>>, NoMemory>
    ensures { IfOk result (λ found. option_map given_by found
        ≡ option_map given (reading Spec.items (map S.text words.entry.now))) }
{
    read_options(alloc, ITEMS.as_slice(), words)
}

/// What the words ask for. Time and memory grow with the length of the words.
pub fn read_words(alloc: Global, words: &[String]) -> Result<Option<Asked>, NoMemory>
    ensures { IfOk result (λ asked. asked ≡ Spec.asked_of (map string_bytes words.now)) }
{
    if has_nul(words) {
        return Ok(None);
    }
    match read_items(alloc, words)? {
        Some(options) => Ok(asked_by(&options)),
        None => Ok(None),
    }
}
