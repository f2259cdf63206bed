//! The arguments of a call.
ghost use Rattle.std.specs.Prelude.{◌≡◌, IfOk, IsTrue};
ghost use Rattle.cdr_values.specs.Values.{values_view};
ghost use Rattle.idl_types.specs.Views.{operation_of};
ghost use Rattle.value_json.specs.Operations.{are_of, kinds_in};
ghost use Rattle.client_runs.specs.Judging as Spec;

use crate::call_end::{CallEnd, LocalFault};
use crate::call_words::CallWords;
use cdr_values::IdlValue;
use idl_types::Operation;
use orb_base::List;
use std::alloc::Global;
use value_json::{JsonError, arguments_from};

/// The text of the arguments.
fn text_of(words: &CallWords) -> &str
    ensures { result.now ≡ Spec.arguments_text words.now }
{
    match &words.arguments {
        Some(text) => text.as_str(),
        None => "[]",
    }
}

/// The arguments that the words give to an operation. Work and memory grow with the text.
pub(crate) fn arguments_by(
    alloc: Global,
    words: &CallWords,
    operation: &Operation,
) -> Result<List<IdlValue>, CallEnd>
    ensures gives { Spec.Gives (λ l. values_view l.items) result (Spec.arguments_by words.now (operation_of operation.now)) }
    ensures of_type { IfOk result (λ l. IsTrue (are_of (kinds_in (operation_of operation.now).params) (values_view l.items))) }
{
    match arguments_from(alloc, operation.params.as_slice(), text_of(words)) {
        Ok(arguments) => Ok(arguments),
        Err(JsonError::NotOfType) => Err(CallEnd::Local(LocalFault::BadArguments)),
        Err(JsonError::NoMemory) => Err(CallEnd::NoMemory),
    }
}
