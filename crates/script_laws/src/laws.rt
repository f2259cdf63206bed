//! That checks leave no default, each law the contract of a call that does nothing.
ghost use Rattle.script_laws.specs.Laws.{ExpressionsAreDefined, MethodsAreDefined, ScriptsAreDefined, ServedAreDefined, TextsAreDefined};

/// What a checked expression evaluates to, over slots that hold values of their variables, is defined without defaults, and
/// its value is of the kind that the check has given.
pub fn checked_expressions_are_defined()
    ensures { ExpressionsAreDefined }
{}

/// What a checked method comes to, on values of the types of its parameters, is defined without defaults.
pub fn checked_methods_are_defined()
    ensures { MethodsAreDefined }
{}

/// What servants of a checked script answer to a job, whatever its bytes are, is defined without defaults.
pub fn checked_servants_are_defined()
    ensures { ServedAreDefined }
{}

/// The same over the things that a repository takes one by one, with the built-in interface after them.
pub fn checked_scripts_are_defined()
    ensures { ScriptsAreDefined }
{}

/// The same over the things that a text of IDL declares, of which only counts are asked.
pub fn checked_texts_are_defined()
    ensures { TextsAreDefined }
{}
