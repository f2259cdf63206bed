//! Times parts of the broker. To be run by hand, with the words `buffer WAITING ROUNDS`, `cell`, `json OCTETS MEMBERS
//! ROUNDS`, `script CALLS` or `link HOST PORT CALLERS CALLS`. By other words it writes nothing.
#![tactic(auto)]

mod asked;
mod buffers;
mod cells;
mod json_values;
mod links;
mod scripts;

use std::io;
use std_devices::words;

/// Calls the bench that the first word names, with the words after it.
fn main(rt: HostRuntime) -> io::Result<()> {
    let words = words(&rt, rt.alloc())?;
    let Some((bench, others)) = words.as_slice().split_first() else {
        return Ok(());
    };
    match bench.as_str() {
        "buffer" => buffers::bench(&rt, others),
        "cell" => cells::bench(&rt),
        "json" => json_values::bench(&rt, others),
        "script" => scripts::bench(&rt, others),
        "link" => links::bench(&rt, others),
        _ => Ok(()),
    }
}
