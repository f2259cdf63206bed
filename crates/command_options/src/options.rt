//! Reading words by a list of items.
ghost use Rattle.std.specs.Prelude.{◌≡◌, is_some, map, option_map, true, IfOk};
ghost use Rattle.command_options.specs.Given.{given};
ghost use Rattle.command_options.specs.Found.{given_by};
ghost use Rattle.command_options.specs.Items.{is_lawful, items_of};
ghost use Rattle.command_options.specs.Uses.{reading};
ghost use Rattle.command_options.specs.Words.{form_of, has_no_stray_dash, is_dashed};

use crate::item::Item;
use crate::library::{command_of, matches_of};
use clap::ArgMatches;
use clap::parser::ValueSource;
use orb_base::NoMemory;
use std::alloc::Global;
use std::convert::AsStr;

/// What words give the items of a command: for each name its text, where the item is used.
#[derive(Drop)]
pub struct Options<'a> {
    matches: ArgMatches<'a>,
}

impl<'a> Options<'a> {
    /// The value of the item of this name, where it is used; `true` of a switch. Takes no memory.
    #[tactic(auto, using(crate::proofs::Readers::by_words, crate::proofs::Readers::by_default))]
    pub fn value(&self, name: &str) -> Option<&'a str>
        ensures { option_map (λ text. text.now) result ≡ given_by self.now name.now }
    {
        match self.matches.value_source(name) {
            Some(ValueSource::DefaultValue) => None,
            _ => self.matches.get_str(name),
        }
    }

    /// Whether the item of this name is used. Takes no memory.
    pub fn has(&self, name: &str) -> bool
        ensures { result ≡ is_some (given_by self.now name.now) }
    {
        self.value(name).is_some()
    }
}

/// What the words after a command's name give its items; none exactly where the words have no reading.
pub fn read_options<'a, S: AsStr>(
    alloc: Global,
    items: &[Item<'a>],
    words: &'a [S],
) -> Result<Option<Options<'a>>, NoMemory>
    requires lawful { is_lawful (items_of items.now) ≡ true }
    ensures { IfOk result (λ found. option_map given_by found
        ≡ option_map given (reading (items_of items.now) (map S.text words.entry.now))) }
{
    if !has_no_stray(words) {
        return Ok(None);
    }
    let command = command_of(alloc, items)?;
    match matches_of(command, words)? {
        Some(matches) => Ok(Some(Options { matches })),
        None => Ok(None),
    }
}

/// Whether no word begins with a dash but for `--name` and `--name=value`.
fn has_no_stray<S: AsStr>(words: &[S]) -> bool
    ensures { result ≡ has_no_stray_dash (map S.text words.now) }
{
    for word in words {
        if is_stray(word.as_str()) {
            return false;
        }
    }
    true
}

/// Whether a word begins with a dash and is neither `--name` nor `--name=value`.
fn is_stray(word: &str) -> bool
    ensures { result ≡ is_dashed (form_of word.now) }
{
    match word.as_bytes() {
        [] => false,
        [first] => *first == b'-',
        [first, _second] => *first == b'-',
        [first, second, ..] => *first == b'-' && *second != b'-',
    }
}
