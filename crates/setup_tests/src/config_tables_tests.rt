//! Keys of small documents, each judged by hand from the rules of its reader.

use config_tables::*;
use orb_base::Text;
use std::alloc::Global;
use std::test::*;
use toml::{Table, Value};

fn document(alloc: Global, text: &[u8]) -> Option<Table> {
    match toml::table_from_slice(alloc, text) {
        Ok(table) => Some(table),
        Err(_) => None,
    }
}

/// A cause, and the path at which it is given.
type Fault = (ConfigCause, &'static str);

/// Whether an error is a refusal with this cause at this path.
fn tells(e: &SetupError, want: Fault) -> bool {
    let (cause, path) = want;
    match e {
        SetupError::Refused(fault) => {
            fault.cause == cause && fault.path.as_slice() == path.as_bytes()
        }
        SetupError::NoMemory => false,
    }
}

/// How one key is read. Numbers are from 1 to 64, and lists have one entry or two.
enum Ask {
    /// Which keys of the table are known.
    Known(&'static [&'static str]),
    Member,
    Excluded,
    DueNumber,
    FreeNumber,
    NumberWhere(bool),
    DueNative,
    NativeWhere(bool),
    FreeTruth,
    DueList,
    FreeList,
    ListWhere(bool),
    DueTable,
    FreeTable,
}

/// What was read.
#[derive(Clone, Copy, PartialEq)]
enum Got {
    Absent,
    Fine,
    Number(u32),
    Native(i32),
    Truth(bool),
    /// So many entries.
    Count(usize),
}

/// A read: the path of its table, the key, how it is read, and what comes of it.
type Row = (&'static str, &'static str, Ask, Result<Got, Fault>);

fn number(found: Option<u32>) -> Got {
    match found {
        Some(n) => Got::Number(n),
        None => Got::Absent,
    }
}

fn count(found: Option<&Vec<Value>>) -> Got {
    match found {
        Some(list) => Got::Count(list.len()),
        None => Got::Absent,
    }
}

fn there(found: bool) -> Got {
    if found { Got::Fine } else { Got::Absent }
}

fn read_key(alloc: Global, table: &Table, row: &Row) -> Result<Got, SetupError> {
    let (path, key, ask, _) = row;
    match ask {
        Ask::Known(keys) => {
            known_keys(alloc, path, table, keys)?;
            Ok(Got::Fine)
        }
        Ask::Member => Ok(there(member(table, key).is_some())),
        Ask::Excluded => {
            excluded(alloc, path, table, key)?;
            Ok(Got::Fine)
        }
        Ask::DueNumber => Ok(Got::Number(due_number(alloc, path, table, key, 1, 64)?)),
        Ask::FreeNumber => Ok(number(free_number(alloc, path, table, key, 1, 64)?)),
        Ask::NumberWhere(holds) => {
            Ok(Got::Number(number_where(alloc, path, table, key, (1, 64), *holds)?))
        }
        Ask::DueNative => Ok(Got::Native(due_native(alloc, path, table, key)?)),
        Ask::NativeWhere(holds) => {
            Ok(Got::Native(native_where(alloc, path, table, key, *holds)?))
        }
        Ask::FreeTruth => Ok(Got::Truth(free_truth(alloc, path, table, key)?)),
        Ask::DueList => Ok(Got::Count(due_list(alloc, path, table, key, 1, 2)?.len())),
        Ask::FreeList => Ok(count(free_list(alloc, path, table, key, 1, 2)?)),
        Ask::ListWhere(holds) => {
            list_where(alloc, path, table, key, (1, 2), *holds)?;
            Ok(Got::Fine)
        }
        Ask::DueTable => {
            due_table(alloc, path, table, key)?;
            Ok(Got::Fine)
        }
        Ask::FreeTable => Ok(there(free_table(alloc, path, table, key)?.is_some())),
    }
}

fn holds(alloc: Global, table: &Table, row: &Row) -> bool {
    match read_key(alloc, table, row) {
        Ok(got) => row.3 == Ok(got),
        Err(e) => match row.3 {
            Ok(_) => false,
            Err(want) => tells(&e, want),
        },
    }
}

fn each_holds(alloc: Global, table: &Table, rows: &[Row]) -> bool {
    for row in rows {
        if !holds(alloc, table, row) {
            return false;
        }
    }
    true
}

/// Whether each read of a document gives what its row says.
fn all_hold(alloc: Global, text: &[u8], rows: &[Row]) -> bool {
    match document(alloc, text) {
        Some(table) => each_holds(alloc, &table, rows),
        None => false,
    }
}

const THREE_KEYS: &[u8] = b"zeta = 1\nkey = 2\nalpha = 3\n";

const LEAST: &[Row] = &[
    (
        "object[1]",
        "",
        Ask::Known(&["key"]),
        Err((ConfigCause::UnknownKey, "object[1].alpha")),
    ),
    (
        "",
        "",
        Ask::Known(&["key", "alpha"]),
        Err((ConfigCause::UnknownKey, "zeta")),
    ),
    ("", "", Ask::Known(&["zeta", "key", "alpha"]), Ok(Got::Fine)),
];

#[test]
fn the_least_unknown_key_is_named(rt: HostRuntime) {
    assert!(rt; all_hold(rt.alloc(), THREE_KEYS, LEAST));
}

const WITH_NUL: &[u8] = b"\"a\\u0000b\" = 1\n";

const UNTIL_NUL: &[Row] = &[(
    "pool",
    "",
    Ask::Known(&["a"]),
    Err((ConfigCause::UnknownKey, "pool.a")),
)];

#[test]
fn an_unknown_key_is_named_up_to_its_nul(rt: HostRuntime) {
    assert!(rt; all_hold(rt.alloc(), WITH_NUL, UNTIL_NUL));
}

const OTHER_KINDS: &[u8] =
    b"zero = 0\nmore = 65\nless = -1\ntrue = true\nhalf = 1.0\nday = 1979-05-27\ntext = \"1\"\n";

const NO_NUMBERS: &[Row] = &[
    (
        "",
        "zero",
        Ask::DueNumber,
        Err((ConfigCause::OutOfRange, "zero")),
    ),
    (
        "",
        "more",
        Ask::DueNumber,
        Err((ConfigCause::OutOfRange, "more")),
    ),
    (
        "",
        "less",
        Ask::DueNumber,
        Err((ConfigCause::OutOfRange, "less")),
    ),
    (
        "",
        "true",
        Ask::DueNumber,
        Err((ConfigCause::WrongKind, "true")),
    ),
    (
        "",
        "half",
        Ask::DueNumber,
        Err((ConfigCause::WrongKind, "half")),
    ),
    (
        "",
        "day",
        Ask::DueNumber,
        Err((ConfigCause::WrongKind, "day")),
    ),
    (
        "",
        "text",
        Ask::DueNumber,
        Err((ConfigCause::WrongKind, "text")),
    ),
    (
        "",
        "none",
        Ask::DueNumber,
        Err((ConfigCause::Missing, "none")),
    ),
];

#[test]
fn numbers_are_judged_by_kind_and_range(rt: HostRuntime) {
    assert!(rt; all_hold(rt.alloc(), OTHER_KINDS, NO_NUMBERS));
}

const ENDS: &[Row] = &[
    ("", "low", Ask::DueNumber, Ok(Got::Number(1))),
    ("", "low", Ask::FreeNumber, Ok(Got::Number(1))),
    ("", "high", Ask::DueNumber, Ok(Got::Number(64))),
    ("", "high", Ask::FreeNumber, Ok(Got::Number(64))),
];

#[test]
fn both_ends_of_a_range_are_in_it(rt: HostRuntime) {
    assert!(rt; all_hold(rt.alloc(), b"low = 1\nhigh = 64\n", ENDS));
}

const FREE: &[Row] = &[
    ("pool", "none", Ask::FreeNumber, Ok(Got::Absent)),
    (
        "pool",
        "more",
        Ask::FreeNumber,
        Err((ConfigCause::OutOfRange, "pool.more")),
    ),
];

#[test]
fn a_number_may_be_free(rt: HostRuntime) {
    assert!(rt; all_hold(rt.alloc(), b"more = 65\n", FREE));
}

const NUMBERS_WHERE: &[Row] = &[
    ("", "low", Ask::NumberWhere(true), Ok(Got::Number(1))),
    ("", "none", Ask::NumberWhere(false), Ok(Got::Number(0))),
    (
        "",
        "none",
        Ask::NumberWhere(true),
        Err((ConfigCause::Missing, "none")),
    ),
    (
        "",
        "low",
        Ask::NumberWhere(false),
        Err((ConfigCause::WrongKind, "low")),
    ),
];

#[test]
fn a_number_is_due_exactly_where_it_has_a_use(rt: HostRuntime) {
    assert!(rt; all_hold(rt.alloc(), b"low = 1\n", NUMBERS_WHERE));
}

const ABOUT_32_BITS: &[u8] =
    b"low = -2147483648\nhigh = 2147483647\nless = -2147483649\nmore = 2147483648\non = true\n";

const NATIVES: &[Row] = &[
    ("", "low", Ask::DueNative, Ok(Got::Native(i32::MIN))),
    ("", "high", Ask::DueNative, Ok(Got::Native(i32::MAX))),
    (
        "",
        "less",
        Ask::DueNative,
        Err((ConfigCause::OutOfRange, "less")),
    ),
    (
        "",
        "more",
        Ask::DueNative,
        Err((ConfigCause::OutOfRange, "more")),
    ),
    (
        "",
        "on",
        Ask::DueNative,
        Err((ConfigCause::WrongKind, "on")),
    ),
    (
        "",
        "none",
        Ask::DueNative,
        Err((ConfigCause::Missing, "none")),
    ),
];

#[test]
fn natives_have_32_bits(rt: HostRuntime) {
    assert!(rt; all_hold(rt.alloc(), ABOUT_32_BITS, NATIVES));
}

const NATIVES_WHERE: &[Row] = &[
    ("", "low", Ask::NativeWhere(true), Ok(Got::Native(-7))),
    ("", "none", Ask::NativeWhere(false), Ok(Got::Native(0))),
    (
        "map",
        "low",
        Ask::NativeWhere(false),
        Err((ConfigCause::WrongKind, "map.low")),
    ),
];

#[test]
fn a_native_is_due_exactly_where_it_has_a_use(rt: HostRuntime) {
    assert!(rt; all_hold(rt.alloc(), b"low = -7\n", NATIVES_WHERE));
}

const TRUTHS: &[Row] = &[
    ("", "on", Ask::FreeTruth, Ok(Got::Truth(true))),
    ("", "none", Ask::FreeTruth, Ok(Got::Truth(false))),
    (
        "pool",
        "one",
        Ask::FreeTruth,
        Err((ConfigCause::WrongKind, "pool.one")),
    ),
];

#[test]
fn truth_values_are_no_numbers(rt: HostRuntime) {
    assert!(rt; all_hold(rt.alloc(), b"on = true\none = 1\n", TRUTHS));
}

/// How a text is read.
enum AskText {
    /// It has one byte or two.
    Due,
    /// It has nine bytes at most, and is due where this holds.
    Along(bool),
    /// The same where a key is.
    AlongKey(&'static str),
    /// It has nine bytes at most.
    Free,
}

/// A read of a text: the key, how it is read, and what comes of it.
type TextRow = (&'static str, AskText, Result<Option<&'static str>, Fault>);

fn got_text(alloc: Global, table: &Table, row: &TextRow) -> Result<Option<Text>, SetupError> {
    let (key, ask, _) = row;
    match ask {
        AskText::Due => Ok(Some(due_text(alloc, "", table, key, 1, 2)?)),
        AskText::Along(holds) => text_along(alloc, "", table, key, (0, 9), *holds),
        AskText::AlongKey(other) => {
            text_along(alloc, "", table, key, (0, 9), stands(table, other))
        }
        AskText::Free => free_text(alloc, "", table, key, 0, 9),
    }
}

fn is_text(found: &Option<Text>, want: &Option<&str>) -> bool {
    match found {
        Some(text) => match want {
            Some(want) => text.as_slice() == want.as_bytes(),
            None => false,
        },
        None => want.is_none(),
    }
}

fn text_holds(alloc: Global, table: &Table, row: &TextRow) -> bool {
    match got_text(alloc, table, row) {
        Ok(text) => match &row.2 {
            Ok(want) => is_text(&text, want),
            Err(_) => false,
        },
        Err(e) => match row.2 {
            Ok(_) => false,
            Err(want) => tells(&e, want),
        },
    }
}

fn each_text_holds(alloc: Global, table: &Table, rows: &[TextRow]) -> bool {
    for row in rows {
        if !text_holds(alloc, table, row) {
            return false;
        }
    }
    true
}

/// Whether each text of a document is read as its row says.
fn all_texts_hold(alloc: Global, text: &[u8], rows: &[TextRow]) -> bool {
    match document(alloc, text) {
        Some(table) => each_text_holds(alloc, &table, rows),
        None => false,
    }
}

const NO_TEXTS: &[TextRow] = &[
    (
        "empty",
        AskText::Due,
        Err((ConfigCause::OutOfRange, "empty")),
    ),
    ("long", AskText::Due, Err((ConfigCause::OutOfRange, "long"))),
    ("nul", AskText::Due, Err((ConfigCause::OutOfRange, "nul"))),
    (
        "number",
        AskText::Due,
        Err((ConfigCause::WrongKind, "number")),
    ),
    ("none", AskText::Due, Err((ConfigCause::Missing, "none"))),
];

const ODD_TEXTS: &[u8] = b"empty = \"\"\nlong = \"abc\"\nnul = \"\\u0000\"\nnumber = 3\n";

#[test]
fn texts_are_judged_by_kind_and_length(rt: HostRuntime) {
    assert!(rt; all_texts_hold(rt.alloc(), ODD_TEXTS, NO_TEXTS));
}

const TEXTS: &[TextRow] = &[
    ("two", AskText::Due, Ok(Some("ab"))),
    ("two", AskText::Free, Ok(Some("ab"))),
    ("two", AskText::Along(true), Ok(Some("ab"))),
];

#[test]
fn texts_are_read_as_they_stand(rt: HostRuntime) {
    assert!(rt; all_texts_hold(rt.alloc(), b"two = \"ab\"\n", TEXTS));
}

const ALONG: &[TextRow] = &[
    (
        "none",
        AskText::AlongKey("two"),
        Err((ConfigCause::Missing, "none")),
    ),
    ("none", AskText::AlongKey("some"), Ok(None)),
];

#[test]
fn a_text_may_be_due_along_with_another_key(rt: HostRuntime) {
    assert!(rt; all_texts_hold(rt.alloc(), b"two = \"ab\"\n", ALONG));
}

const WORDS: &[u8] = b"two = \"ab\"\nlong = \"abc\"\n";

/// Keys, and their words or their faults.
const ONE_OF_SOME: &[(&str, Result<&str, Fault>)] = &[
    ("two", Ok("ab")),
    ("long", Err((ConfigCause::OutOfRange, "long"))),
];

fn word_holds(alloc: Global, table: &Table, key: &str, want: Result<&str, Fault>) -> bool {
    match due_word(alloc, "", table, key, &["a", "ab"]) {
        Ok(word) => match want {
            Ok(want) => word == want,
            Err(_) => false,
        },
        Err(e) => match want {
            Ok(_) => false,
            Err(want) => tells(&e, want),
        },
    }
}

fn each_word_holds(alloc: Global, table: &Table) -> bool {
    for (key, want) in ONE_OF_SOME {
        if !word_holds(alloc, table, key, *want) {
            return false;
        }
    }
    true
}

fn all_words_hold(alloc: Global) -> bool {
    match document(alloc, WORDS) {
        Some(table) => each_word_holds(alloc, &table),
        None => false,
    }
}

#[test]
fn words_are_one_of_some(rt: HostRuntime) {
    assert!(rt; all_words_hold(rt.alloc()));
}

const EXCLUDED: &[Row] = &[
    ("", "one", Ask::Member, Ok(Got::Fine)),
    ("", "none", Ask::Member, Ok(Got::Absent)),
    (
        "pool",
        "one",
        Ask::Excluded,
        Err((ConfigCause::WrongKind, "pool.one")),
    ),
    ("pool", "none", Ask::Excluded, Ok(Got::Fine)),
];

#[test]
fn an_excluded_key_is_of_the_wrong_kind(rt: HostRuntime) {
    assert!(rt; all_hold(rt.alloc(), b"one = 1\n", EXCLUDED));
}

const ODD_LISTS: &[u8] = b"mixed = [{}, 1]\nnone = []\nmore = [{}, {}, {}]\ntable = {}\n";

const NO_LISTS: &[Row] = &[
    (
        "",
        "mixed",
        Ask::DueList,
        Err((ConfigCause::WrongKind, "mixed")),
    ),
    (
        "",
        "table",
        Ask::DueList,
        Err((ConfigCause::WrongKind, "table")),
    ),
    (
        "",
        "none",
        Ask::DueList,
        Err((ConfigCause::OutOfRange, "none")),
    ),
    (
        "",
        "more",
        Ask::DueList,
        Err((ConfigCause::OutOfRange, "more")),
    ),
    (
        "",
        "absent",
        Ask::DueList,
        Err((ConfigCause::Missing, "absent")),
    ),
];

#[test]
fn lists_are_judged_by_kind_and_count(rt: HostRuntime) {
    assert!(rt; all_hold(rt.alloc(), ODD_LISTS, NO_LISTS));
}

const LISTS: &[Row] = &[
    ("", "two", Ask::FreeList, Ok(Got::Count(2))),
    ("", "two", Ask::ListWhere(true), Ok(Got::Fine)),
    (
        "pool",
        "two",
        Ask::ListWhere(false),
        Err((ConfigCause::WrongKind, "pool.two")),
    ),
];

#[test]
fn a_list_may_be_free_or_excluded(rt: HostRuntime) {
    assert!(rt; all_hold(rt.alloc(), b"two = [{}, {}]\n", LISTS));
}

const TABLES: &[Row] = &[
    ("", "table", Ask::DueTable, Ok(Got::Fine)),
    (
        "",
        "list",
        Ask::DueTable,
        Err((ConfigCause::WrongKind, "list")),
    ),
    ("", "absent", Ask::FreeTable, Ok(Got::Absent)),
];

#[test]
fn tables_are_tables_only(rt: HostRuntime) {
    assert!(rt; all_hold(rt.alloc(), b"list = [{}]\ntable = {}\n", TABLES));
}

/// A lane of a document, by its priority alone.
#[derive(Drop)]
struct Level {
    priority: u32,
}

impl Entry for Level {
    ghost use Rattle.config_tables.specs.Held.{number_at};
    ghost use Rattle.config_tables.specs.Judging.{table_fault, rule_fault};
    ghost use Rattle.config_tables.specs.Rules.{key_of, due, number};
    ghost use Rattle.std.specs.Prelude.{◌≡◌, [], ◌∷◌, codes};

    ghost fault = { table_fault rule_fault (key_of (codes "priority") due (number 0 9) ∷ []) };

    ghost Means = { λ ms level. level.priority ≡ number_at (codes "priority") ms };

    #[tactic(auto, using(config_tables::proofs::Judging::refuses_first, config_tables::proofs::Judging::refuses_later))]
    fn read(alloc: Global, path: &str, table: &Table) -> Result<Level, SetupError> {
        known_keys(alloc, path, table, &["priority"])?;
        let priority = due_number(alloc, path, table, "priority", 0, 9)?;
        Ok(Level { priority })
    }
}

/// The number of levels that were read and the first one's priority, or a fault.
type Levels = Result<(usize, u32), Fault>;

fn are_levels(levels: &[Level], want: &Levels) -> bool {
    match (levels.first(), want) {
        (Some(first), Ok((count, priority))) => {
            levels.len() == *count && first.priority == *priority
        }
        _ => false,
    }
}

/// Whether levels were read so.
fn reads(answer: Result<Vec<Level>, SetupError>, want: &Levels) -> bool {
    match answer {
        Ok(levels) => are_levels(levels.as_slice(), want),
        Err(e) => match want {
            Ok(_) => false,
            Err(want) => tells(&e, *want),
        },
    }
}

const TWO_LEVELS: &[u8] = b"two = [{ priority = 3 }, { priority = 12 }]\n";

const SECOND_REFUSED: Levels = Err((ConfigCause::OutOfRange, "pool.two[1].priority"));

fn reads_by_number(alloc: Global, table: &Table) -> bool {
    match due_list(alloc, "", table, "two", 1, 2) {
        Ok(two) => {
            reads(read_entries(alloc, "two", &two[..1]), &Ok((1, 3)))
                && reads(read_list(alloc, "pool", "two", two), &SECOND_REFUSED)
        }
        Err(_) => false,
    }
}

fn two_levels_are_read(alloc: Global) -> bool {
    match document(alloc, TWO_LEVELS) {
        Some(table) => reads_by_number(alloc, &table),
        None => false,
    }
}

#[test]
fn the_entries_of_a_list_are_read_by_number(rt: HostRuntime) {
    assert!(rt; two_levels_are_read(rt.alloc()));
}

const EXCLUDED_LEVELS: Levels = Err((ConfigCause::WrongKind, "one"));

fn reads_free(alloc: Global, table: &Table) -> bool {
    reads(free_entries(alloc, "", table, "one", (1, 2)), &Ok((1, 9)))
        && reads(
            entries_where(alloc, "", table, "one", (1, 2), true),
            &Ok((1, 9)),
        )
        && reads(
            entries_where(alloc, "", table, "one", (1, 2), false),
            &EXCLUDED_LEVELS,
        )
}

fn one_level_is_read(alloc: Global) -> bool {
    match document(alloc, b"one = [{ priority = 9 }]\n") {
        Some(table) => reads_free(alloc, &table),
        None => false,
    }
}

#[test]
fn a_list_of_entries_may_be_free_or_excluded(rt: HostRuntime) {
    assert!(rt; one_level_is_read(rt.alloc()));
}

/// The path of the 11th entry of a list.
fn is_entry_path(alloc: Global, list: &str, want: &str) -> bool {
    match entry_path(alloc, list, 10) {
        Ok(path) => path.as_str() == want,
        Err(_) => false,
    }
}

fn has_dots_and_numbers(alloc: Global) -> bool {
    match key_path(alloc, "pool", "lanes") {
        Ok(path) => is_entry_path(alloc, path.as_str(), "pool.lanes[10]"),
        Err(_) => false,
    }
}

fn has_no_dot(alloc: Global) -> bool {
    match key_path(alloc, "", "map") {
        Ok(path) => path.as_str() == "map",
        Err(_) => false,
    }
}

fn refusals_have_paths(alloc: Global) -> bool {
    tells(
        &refuse_at(alloc, "map", ConfigCause::BadMap),
        (ConfigCause::BadMap, "map"),
    ) && tells(
        &refuse_key(alloc, "pool", "static", ConfigCause::NoThread),
        (ConfigCause::NoThread, "pool.static"),
    )
}

#[test]
fn paths_have_dots_and_numbers(rt: HostRuntime) {
    assert!(rt; has_dots_and_numbers(rt.alloc()) && has_no_dot(rt.alloc()));
    assert!(rt; refusals_have_paths(rt.alloc()));
}
