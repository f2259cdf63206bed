//! Laws of first faults, each the contract of a call that does nothing.
ghost use Rattle.idl_names.specs.Declaring.{text_names};
ghost use Rattle.idl_names.specs.Whole.{Declares};
ghost use Rattle.servant_scripts.specs.Scripts.{script_reading, Spells};
ghost use Rattle.first_faults.specs.Laws.{idl_texts, script_texts, RefusesFirst, AtOneToken, IsOne, IsRead, HasNone, AnyLabelRefuses};

/// The fault of a text of IDL is that of its first token at fault. There is one such token at most, and none in a text that
/// declares names; and one fault at most, where some text goes on with that token.
pub fn first_faults_of_idl()
    ensures refused { RefusesFirst idl_texts text_names }
    ensures token { AtOneToken idl_texts }
    ensures one { IsOne idl_texts }
    ensures read { IsRead idl_texts text_names }
    ensures none { HasNone idl_texts Declares }
{}

/// The same of scripts.
pub fn first_faults_of_scripts()
    ensures refused { RefusesFirst script_texts script_reading }
    ensures token { AtOneToken script_texts }
    ensures one { IsOne script_texts }
    ensures read { IsRead script_texts script_reading }
    ensures none { HasNone script_texts Spells }
{}

/// Why a first fault has to say which label refused: by `IsFirstFault`, which lets any label be that one, each text of IDL,
/// lawful ones too, has a fault of each cause at its first token.
pub fn any_label_refuses_each_text()
    ensures { AnyLabelRefuses }
{}
