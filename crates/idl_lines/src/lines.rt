//! The lines of a thing and of an operation.
ghost use Rattle.std.specs.Prelude.{◌≡◌, ◌++◌, OnOk, string_bytes, map};
ghost use Rattle.std.specs.List.{flat_map};
ghost use Rattle.idl_types.specs.Views.{thing_of, operation_of};
ghost use Rattle.idl_lines.specs.Listing as Spec;

use crate::counts::{ins_of, outs_of};
use idl_types::{Declaration, Operation};
use orb_base::NoMemory;
use std::fmt::Write;
use text_streams::shown;

/// The word before the id of a declaration.
fn word_of(declaration: &Declaration) -> &'static str
    ensures { result.now ≡ Spec.word_of (thing_of declaration.now) }
{
    match declaration {
        Declaration::Constant(_) => "const",
        Declaration::Named(_) => "type",
        Declaration::Exception(_) => "exception",
        Declaration::Interface(_) => "interface",
    }
}

/// Puts the line of an operation after the text.
fn put_operation(text: &mut String, operation: &Operation) -> Result<(), NoMemory>
    ensures { OnOk result (string_bytes text.new ≡ string_bytes text.old ++ Spec.operation_line (operation_of operation.now)) }
{
    let name = shown(operation.name.as_slice());
    let ins = ins_of(operation.params.as_slice());
    let outs = outs_of(operation.params.as_slice());
    let raises = operation.raises.len();
    write!(text, "op {name} in {ins} out {outs} raises {raises}\n")?;
    Ok(())
}

/// Puts the line of each operation after the text.
fn put_operations(text: &mut String, operations: &[Operation]) -> Result<(), NoMemory>
    ensures { OnOk result (string_bytes text.new ≡ string_bytes text.old ++ flat_map Spec.operation_line (map operation_of operations.now)) }
{
    for operation in operations {
        put_operation(text, operation)?;
    }
    Ok(())
}

/// Puts the line of a declaration after the text, without those of its operations.
fn put_head(text: &mut String, declaration: &Declaration) -> Result<(), NoMemory>
    ensures { OnOk result (string_bytes text.new ≡ string_bytes text.old ++ Spec.head_line (thing_of declaration.now)) }
{
    let word = word_of(declaration);
    let id = shown(declaration.id().as_slice());
    write!(text, "{word} {id}\n")?;
    Ok(())
}

/// Puts the lines of a declaration after the text.
pub fn put_lines(text: &mut String, declaration: &Declaration) -> Result<(), NoMemory>
    ensures { OnOk result (string_bytes text.new ≡ string_bytes text.old ++ Spec.lines_of (thing_of declaration.now)) }
{
    put_head(text, declaration)?;
    put_operations(text, declaration.operations())
}
