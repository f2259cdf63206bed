//! Reading the words of a command line.
ghost use Rattle.std.specs.Prelude.{◌≡◌, ◌∷◌, true, IfOk, OnErr, is_some, map, option_map, string_bytes};
ghost use Rattle.command_options.specs.Commands as Takes;
ghost use Rattle.command_options.specs.Found.{given_by};
ghost use Rattle.command_options.specs.Given.{given};
ghost use Rattle.command_options.specs.Uses.{reading};
ghost use Rattle.command_words.specs.Meanings as By;
ghost use Rattle.command_words.specs.Words as Spec;

use crate::meaning::{LoadWords, Meaning, PipeWords, ServeWords};
use crate::numbers::{batch_by, callers_by, count_of, fragment_by, priority_by, runs_by};
use client_mux::CallerCount;
use client_runs::{ArgumentText, CallWords};
use command_options::{
    Options, has_nul, number_of, read_audit, read_call, read_dump, read_idl, read_load, read_names,
    read_pipe, read_refs, read_serve,
};
use load_runs::LoadPlan;
use object_lines::read_address;
use orb_base::{NoMemory, Text};
use pipe_runs::Shown;
use server_runs::RunPlan;
use std::alloc::Global;

/// What the words mean, the first of which is the command: the options after it come in any order, each once at most, as
/// `--name value` or `--name=value`. The reading, also of words that have none, takes time and memory in the length of the words.
#[tactic(auto, unfolding(crate::specs::Words::command_of, crate::specs::Words::asks_memory))]
pub fn read_words(alloc: Global, words: &[String]) -> Result<Meaning, NoMemory>
    // The meaning, where memory is there.
    ensures meaning { IfOk result (λ meaning. meaning ≡ Spec.command_of (map string_bytes words.now)) }
    // Memory is asked for the words of a command alone, where none of them holds a NUL.
    ensures memory { OnErr result (Spec.asks_memory (map string_bytes words.now) ≡ true) }
{
    if has_nul(words) {
        return Ok(Meaning::Unread);
    }
    match words {
        [] => Ok(Meaning::Unread),
        [name, options @ ..] => read_named(alloc, name.as_str(), options),
    }
}

/// What the command of this name means with these words after it.
fn read_named(alloc: Global, name: &str, words: &[String]) -> Result<Meaning, NoMemory>
    ensures meaning { IfOk result (λ meaning. meaning ≡ Spec.named_by (name.now ∷ map string_bytes words.now)) }
    ensures memory { OnErr result (is_some (Spec.command_named name.now) ≡ true) }
{
    if name == "pipe" {
        pipe(alloc, words)
    } else if name == "serve" {
        serve(alloc, words)
    } else if name == "names" {
        names(alloc, words)
    } else if name == "refs" {
        refs(alloc, words)
    } else if name == "dump" {
        dump(alloc, words)
    } else if name == "audit" {
        audit(alloc, words)
    } else if name == "idl" {
        idl(alloc, words)
    } else if name == "call" {
        call(alloc, words)
    } else if name == "load" {
        load(alloc, words)
    } else {
        Ok(Meaning::Unread)
    }
}

/// What `pipe` means with these words after it.
fn pipe(alloc: Global, words: &[String]) -> Result<Meaning, NoMemory>
    ensures { IfOk result (λ meaning. meaning
        ≡ Spec.meant By.pipe_by (option_map given (reading Takes.pipe_items (map string_bytes words.now)))) }
{
    match read_pipe(alloc, words)? {
        Some(options) => pipe_by(alloc, &options),
        None => Ok(Meaning::Unread),
    }
}

/// What `pipe` means by what its options give.
fn pipe_by(alloc: Global, options: &Options<'_>) -> Result<Meaning, NoMemory>
    ensures { IfOk result (λ meaning. meaning ≡ By.pipe_by (given_by options.now)) }
{
    let Some(batch) = batch_by(options.value("batch")) else {
        return Ok(Meaning::Unread);
    };
    let Some(shown) = shown_by(options.value("history"), options.value("trace")) else {
        return Ok(Meaning::Unread);
    };
    let config = text_by(alloc, options.value("config"))?;
    Ok(Meaning::Pipe(PipeWords {
        config,
        batch,
        shown,
    }))
}

/// What is written: the bytes, with `--history` the text of the history, or with `--trace` its trace. None with both.
fn shown_by(history: Option<&str>, trace: Option<&str>) -> Option<Shown>
    ensures { result
        ≡ By.shown_by (option_map (λ word. word.now) history.entry) (option_map (λ word. word.now) trace.entry) }
{
    match (history, trace) {
        (None, None) => Some(Shown::Bytes),
        (Some(_), None) => Some(Shown::Text),
        (None, Some(_)) => Some(Shown::Trace),
        (Some(_), Some(_)) => None,
    }
}

/// What `serve` means with these words after it.
fn serve(alloc: Global, words: &[String]) -> Result<Meaning, NoMemory>
    ensures { IfOk result (λ meaning. meaning
        ≡ Spec.meant By.serve_by (option_map given (reading Takes.serve_items (map string_bytes words.now)))) }
{
    match read_serve(alloc, words)? {
        Some(options) => serve_by(alloc, &options),
        None => Ok(Meaning::Unread),
    }
}

/// What `serve` means by what its options give.
fn serve_by(alloc: Global, options: &Options<'_>) -> Result<Meaning, NoMemory>
    ensures { IfOk result (λ meaning. meaning ≡ By.serve_by (given_by options.now)) }
{
    let (Some(config), Some(place)) = (options.value("config"), options.value("listen")) else {
        return Ok(Meaning::Unread);
    };
    let Some(at) = read_address(alloc, place.as_bytes())? else {
        return Ok(Meaning::Unread);
    };
    let Some(runs) = runs_by(options.value("runs")) else {
        return Ok(Meaning::Unread);
    };
    let trace = options.has("trace");
    let config = text_of(alloc, config)?;
    let plan = RunPlan { runs, trace };
    Ok(Meaning::Serve(ServeWords { config, at, plan }))
}

/// What `names` means with these words after it.
fn names(alloc: Global, words: &[String]) -> Result<Meaning, NoMemory>
    ensures { IfOk result (λ meaning. meaning
        ≡ Spec.meant By.names_by (option_map given (reading Takes.names_items (map string_bytes words.now)))) }
{
    match read_names(alloc, words)? {
        Some(options) => names_by(alloc, &options),
        None => Ok(Meaning::Unread),
    }
}

/// What `names` means by what its options give.
fn names_by(alloc: Global, options: &Options<'_>) -> Result<Meaning, NoMemory>
    ensures { IfOk result (λ meaning. meaning ≡ By.names_by (given_by options.now)) }
{
    let Some(place) = options.value("listen") else {
        return Ok(Meaning::Unread);
    };
    let Some(at) = read_address(alloc, place.as_bytes())? else {
        return Ok(Meaning::Unread);
    };
    Ok(Meaning::Names(at))
}

/// What `refs` means with these words after it.
fn refs(alloc: Global, words: &[String]) -> Result<Meaning, NoMemory>
    ensures { IfOk result (λ meaning. meaning
        ≡ Spec.meant By.refs_by (option_map given (reading Takes.refs_items (map string_bytes words.now)))) }
{
    match read_refs(alloc, words)? {
        Some(options) => refs_by(alloc, &options),
        None => Ok(Meaning::Unread),
    }
}

/// What `refs` means by what its options give: without a place there is no configuration.
fn refs_by(alloc: Global, options: &Options<'_>) -> Result<Meaning, NoMemory>
    ensures { IfOk result (λ meaning. meaning ≡ By.refs_by (given_by options.now)) }
{
    match (options.value("at"), options.value("config")) {
        (Some(place), config) => refs_at(alloc, place, config),
        (None, Some(_)) => Ok(Meaning::Unread),
        (None, None) => Ok(Meaning::Refs),
    }
}

/// The references at this place, where it is an address.
fn refs_at(alloc: Global, place: &str, config: Option<&str>) -> Result<Meaning, NoMemory>
    ensures { IfOk result (λ meaning. meaning
        ≡ By.refs_of (Some place.now) (option_map (λ name. name.now) config.entry)) }
{
    let Some(at) = read_address(alloc, place.as_bytes())? else {
        return Ok(Meaning::Unread);
    };
    let config = text_by(alloc, config)?;
    Ok(Meaning::RefsAt(at, config))
}

/// What `dump` means with these words after it.
fn dump(alloc: Global, words: &[String]) -> Result<Meaning, NoMemory>
    ensures { IfOk result (λ meaning. meaning
        ≡ Spec.meant By.dump_by (option_map given (reading Takes.dump_items (map string_bytes words.now)))) }
{
    match read_dump(alloc, words)? {
        Some(_) => Ok(Meaning::Dump),
        None => Ok(Meaning::Unread),
    }
}

/// What `audit` means with these words after it.
fn audit(alloc: Global, words: &[String]) -> Result<Meaning, NoMemory>
    ensures { IfOk result (λ meaning. meaning
        ≡ Spec.meant By.audit_by (option_map given (reading Takes.audit_items (map string_bytes words.now)))) }
{
    match read_audit(alloc, words)? {
        Some(_) => Ok(Meaning::Audit),
        None => Ok(Meaning::Unread),
    }
}

/// What `idl` means with these words after it.
fn idl(alloc: Global, words: &[String]) -> Result<Meaning, NoMemory>
    ensures { IfOk result (λ meaning. meaning
        ≡ Spec.meant By.idl_by (option_map given (reading Takes.idl_items (map string_bytes words.now)))) }
{
    match read_idl(alloc, words)? {
        Some(options) => idl_by(alloc, &options),
        None => Ok(Meaning::Unread),
    }
}

/// What `idl` means by what its options give.
fn idl_by(alloc: Global, options: &Options<'_>) -> Result<Meaning, NoMemory>
    ensures { IfOk result (λ meaning. meaning ≡ By.idl_by (given_by options.now)) }
{
    match options.value("file") {
        Some(name) => {
            let name = text_of(alloc, name)?;
            Ok(Meaning::Idl(name))
        }
        None => Ok(Meaning::Unread),
    }
}

/// What `call` means with these words after it.
fn call(alloc: Global, words: &[String]) -> Result<Meaning, NoMemory>
    ensures { IfOk result (λ meaning. meaning
        ≡ Spec.meant By.call_by (option_map given (reading Takes.call_items (map string_bytes words.now)))) }
{
    match read_call(alloc, words)? {
        Some(options) => call_by(alloc, &options),
        None => Ok(Meaning::Unread),
    }
}

/// What `call` means by what its options give.
fn call_by(alloc: Global, options: &Options<'_>) -> Result<Meaning, NoMemory>
    ensures { IfOk result (λ meaning. meaning ≡ By.call_by (given_by options.now)) }
{
    let (Some(remote), Some(name)) = (options.value("ref"), options.value("op")) else {
        return Ok(Meaning::Unread);
    };
    let Some(priority) = priority_by(options.value("priority")) else {
        return Ok(Meaning::Unread);
    };
    let Some(callers) = callers_by(options.value("callers")) else {
        return Ok(Meaning::Unread);
    };
    let reference = text_of(alloc, remote)?;
    let operation = text_of(alloc, name)?;
    let arguments = arguments_by(alloc, options.value("args"))?;
    let idl = text_by(alloc, options.value("idl"))?;
    let interface = text_by(alloc, options.value("interface"))?;
    let words = CallWords {
        reference,
        operation,
        arguments,
        priority,
        idl,
        interface,
    };
    Ok(called_by(words, callers))
}

/// A call, which callers make over one link where their number is given.
fn called_by(words: CallWords, callers: Option<CallerCount>) -> Meaning
    ensures { result ≡ By.called_by words callers }
{
    match callers {
        Some(callers) => Meaning::SharedCall { words, callers },
        None => Meaning::Call(words),
    }
}

/// The text of arguments, if there is one.
fn arguments_by(alloc: Global, word: Option<&str>) -> Result<Option<ArgumentText>, NoMemory>
    ensures { IfOk result (λ text. text ≡ option_map (λ word. word.now) word.entry) }
{
    match word {
        Some(word) => {
            let text = ArgumentText::new(alloc, word)?;
            Ok(Some(text))
        }
        None => Ok(None),
    }
}

/// What `load` means with these words after it.
fn load(alloc: Global, words: &[String]) -> Result<Meaning, NoMemory>
    ensures { IfOk result (λ meaning. meaning
        ≡ Spec.meant By.load_by (option_map given (reading Takes.load_items (map string_bytes words.now)))) }
{
    match read_load(alloc, words)? {
        Some(options) => load_by(alloc, &options),
        None => Ok(Meaning::Unread),
    }
}

/// What `load` means by what its items give.
fn load_by(alloc: Global, options: &Options<'_>) -> Result<Meaning, NoMemory>
    ensures { IfOk result (λ meaning. meaning ≡ By.load_by (given_by options.now)) }
{
    let Some(plan) = plan_by(options) else {
        return Ok(Meaning::Unread);
    };
    let config = text_by(alloc, options.value("config"))?;
    Ok(Meaning::Load(LoadWords { config, plan }))
}

/// What a load is to be by what the items of `load` give. None where one of them is no number that it may be.
fn plan_by(options: &Options<'_>) -> Option<LoadPlan>
    ensures { result ≡ By.plan_by (given_by options.now) }
{
    let seed = number_of(options.value("seed")?)?;
    let count = count_of(options.value("count")?)?;
    let batch = batch_by(options.value("batch"))?;
    let fragment = fragment_by(options.value("fragment"))?;
    Some(LoadPlan {
        seed,
        count,
        batch,
        fragment,
    })
}

/// The text of a word, if there is one.
fn text_by(alloc: Global, word: Option<&str>) -> Result<Option<Text>, NoMemory>
    ensures { IfOk result (λ text. text ≡ option_map (λ word. word.now) word.entry) }
{
    match word {
        Some(word) => {
            let text = text_of(alloc, word)?;
            Ok(Some(text))
        }
        None => Ok(None),
    }
}

/// The text of a word, none of which holds a NUL here.
fn text_of(alloc: Global, word: &str) -> Result<Text, NoMemory>
    ensures { IfOk result (λ text. text ≡ word.now) }
{
    match Text::new(alloc, word.as_bytes()) {
        Ok(text) => Ok(text),
        Err(_) => Err(NoMemory),
    }
}
