//! The commands: what each takes, and the readers of its words. A name, a number or an address is a text here.
ghost use Rattle.std.specs.Prelude.{◌≡◌, map, option_map, IfOk};
ghost use Rattle.command_options.specs.Commands as Spec;
ghost use Rattle.command_options.specs.Found.{given_by};
ghost use Rattle.command_options.specs.Given.{given};
ghost use Rattle.command_options.specs.Uses.{reading};

use crate::item::{Item, Kind};
use crate::options::{Options, read_options};
use orb_base::NoMemory;
use std::alloc::Global;
use std::convert::AsStr;

// `pipe [--config FILE] [--batch N] [--history] [--trace]`
static PIPE: [Item<'static>; 4] = [
    Item {
        name: "config",
        kind: Kind::Valued,
        is_due: false,
    },
    Item {
        name: "batch",
        kind: Kind::Valued,
        is_due: false,
    },
    Item {
        name: "history",
        kind: Kind::Switch,
        is_due: false,
    },
    Item {
        name: "trace",
        kind: Kind::Switch,
        is_due: false,
    },
];

// `serve --config FILE --listen HOST:PORT [--runs N] [--trace]`
static SERVE: [Item<'static>; 4] = [
    Item {
        name: "config",
        kind: Kind::Valued,
        is_due: true,
    },
    Item {
        name: "listen",
        kind: Kind::Valued,
        is_due: true,
    },
    Item {
        name: "runs",
        kind: Kind::Valued,
        is_due: false,
    },
    Item {
        name: "trace",
        kind: Kind::Switch,
        is_due: false,
    },
];

// `names --listen HOST:PORT`
static NAMES: [Item<'static>; 1] = [Item {
    name: "listen",
    kind: Kind::Valued,
    is_due: true,
}];

// `refs [--at HOST:PORT] [--config FILE]`
static REFS: [Item<'static>; 2] = [
    Item {
        name: "at",
        kind: Kind::Valued,
        is_due: false,
    },
    Item {
        name: "config",
        kind: Kind::Valued,
        is_due: false,
    },
];

// `dump`
static DUMP: [Item<'static>; 0] = [];

// `audit`
static AUDIT: [Item<'static>; 0] = [];

// `idl --file FILE`
static IDL: [Item<'static>; 1] = [Item {
    name: "file",
    kind: Kind::Valued,
    is_due: true,
}];

// `call --ref TEXT --op NAME [--args JSON] [--priority N] [--idl FILE] [--interface ID] [--callers N]`
static CALL: [Item<'static>; 7] = [
    Item {
        name: "ref",
        kind: Kind::Valued,
        is_due: true,
    },
    Item {
        name: "op",
        kind: Kind::Valued,
        is_due: true,
    },
    Item {
        name: "args",
        kind: Kind::Valued,
        is_due: false,
    },
    Item {
        name: "priority",
        kind: Kind::Valued,
        is_due: false,
    },
    Item {
        name: "idl",
        kind: Kind::Valued,
        is_due: false,
    },
    Item {
        name: "interface",
        kind: Kind::Valued,
        is_due: false,
    },
    Item {
        name: "callers",
        kind: Kind::Valued,
        is_due: false,
    },
];

// `load SEED COUNT [--config FILE] [--batch N] [--fragment N]`
static LOAD: [Item<'static>; 5] = [
    Item {
        name: "seed",
        kind: Kind::Positional(1),
        is_due: true,
    },
    Item {
        name: "count",
        kind: Kind::Positional(2),
        is_due: true,
    },
    Item {
        name: "config",
        kind: Kind::Valued,
        is_due: false,
    },
    Item {
        name: "batch",
        kind: Kind::Valued,
        is_due: false,
    },
    Item {
        name: "fragment",
        kind: Kind::Valued,
        is_due: false,
    },
];

/// What the words after `pipe` give, which are `[--config FILE] [--batch N] [--history] [--trace]` in any order.
/// None where the words have no reading.
pub fn read_pipe<'a, S: AsStr>(
    alloc: Global,
    words: &'a [S],
) -> Result<Option<Options<'a>>, NoMemory>
    ensures { IfOk result (λ found. option_map given_by found
        ≡ option_map given (reading Spec.pipe_items (map S.text words.entry.now))) }
{
    read_options(alloc, PIPE.as_slice(), words)
}

/// What the words after `serve` give, which are `--config FILE --listen HOST:PORT [--runs N] [--trace]` in any order.
/// None where the words have no reading.
pub fn read_serve<'a, S: AsStr>(
    alloc: Global,
    words: &'a [S],
) -> Result<Option<Options<'a>>, NoMemory>
    ensures { IfOk result (λ found. option_map given_by found
        ≡ option_map given (reading Spec.serve_items (map S.text words.entry.now))) }
{
    read_options(alloc, SERVE.as_slice(), words)
}

/// What the words after `names` give, which are `--listen HOST:PORT`.
/// None where the words have no reading.
pub fn read_names<'a, S: AsStr>(
    alloc: Global,
    words: &'a [S],
) -> Result<Option<Options<'a>>, NoMemory>
    ensures { IfOk result (λ found. option_map given_by found
        ≡ option_map given (reading Spec.names_items (map S.text words.entry.now))) }
{
    read_options(alloc, NAMES.as_slice(), words)
}

/// What the words after `refs` give, which are `[--at HOST:PORT] [--config FILE]` in any order.
/// None where the words have no reading.
pub fn read_refs<'a, S: AsStr>(
    alloc: Global,
    words: &'a [S],
) -> Result<Option<Options<'a>>, NoMemory>
    ensures { IfOk result (λ found. option_map given_by found
        ≡ option_map given (reading Spec.refs_items (map S.text words.entry.now))) }
{
    read_options(alloc, REFS.as_slice(), words)
}

/// What the words after `dump` give: nothing, and there are none.
/// None where the words have no reading.
pub fn read_dump<'a, S: AsStr>(
    alloc: Global,
    words: &'a [S],
) -> Result<Option<Options<'a>>, NoMemory>
    ensures { IfOk result (λ found. option_map given_by found
        ≡ option_map given (reading Spec.dump_items (map S.text words.entry.now))) }
{
    read_options(alloc, DUMP.as_slice(), words)
}

/// What the words after `audit` give: nothing, and there are none.
/// None where the words have no reading.
pub fn read_audit<'a, S: AsStr>(
    alloc: Global,
    words: &'a [S],
) -> Result<Option<Options<'a>>, NoMemory>
    ensures { IfOk result (λ found. option_map given_by found
        ≡ option_map given (reading Spec.audit_items (map S.text words.entry.now))) }
{
    read_options(alloc, AUDIT.as_slice(), words)
}

/// What the words after `idl` give, which are `--file FILE` in any order.
/// None where the words have no reading.
pub fn read_idl<'a, S: AsStr>(
    alloc: Global,
    words: &'a [S],
) -> Result<Option<Options<'a>>, NoMemory>
    ensures { IfOk result (λ found. option_map given_by found
        ≡ option_map given (reading Spec.idl_items (map S.text words.entry.now))) }
{
    read_options(alloc, IDL.as_slice(), words)
}

/// What the words after `call` give, which are `--ref TEXT --op NAME [--args JSON] [--priority N] [--idl FILE]
/// [--interface ID] [--callers N]` in any order.
/// None where the words have no reading.
pub fn read_call<'a, S: AsStr>(
    alloc: Global,
    words: &'a [S],
) -> Result<Option<Options<'a>>, NoMemory>
    ensures { IfOk result (λ found. option_map given_by found
        ≡ option_map given (reading Spec.call_items (map S.text words.entry.now))) }
{
    read_options(alloc, CALL.as_slice(), words)
}

/// What the words after `load` give, which are `SEED COUNT [--config FILE] [--batch N] [--fragment N]` in any order.
/// None where the words have no reading.
pub fn read_load<'a, S: AsStr>(
    alloc: Global,
    words: &'a [S],
) -> Result<Option<Options<'a>>, NoMemory>
    ensures { IfOk result (λ found. option_map given_by found
        ≡ option_map given (reading Spec.load_items (map S.text words.entry.now))) }
{
    read_options(alloc, LOAD.as_slice(), words)
}
