//! Laws on what texts declare. The bodies are empty: each contract is a law of the definitions.
ghost use Rattle.idl_reader.specs.Accepted.{HasEarlierBases, HasInheritedFirst, HasLawfulTypes, HasLeavesLeft, HasNamesApart, HasOperationsApart, HasParamsApart, HasSmallTypes, IsNew, MayDeclare, TextsGive};

/// Each thing that a text declares has an id that none before it has, case aside, and none is in the built-in module.
pub fn texts_give_new_ids()
    ensures { TextsGive IsNew }
{}

/// The bases of each interface that a text declares are interfaces among the things before it.
pub fn texts_give_earlier_bases()
    ensures { TextsGive HasEarlierBases }
{}

/// Each type, constant, exception, result and parameter that a text declares has at most 65,536 leaves and 64 levels.
pub fn texts_give_small_types()
    ensures { TextsGive HasSmallTypes }
{}

/// The names in each type that a text declares are told apart, case aside: of members, of cases, and of labels.
pub fn texts_give_apart_names()
    ensures { TextsGive HasNamesApart }
{}

/// Each type that a text declares is lawful: a struct has a member, a union a discriminator that it may switch on, labels that
/// differ and at most one default, and an array a length.
pub fn texts_give_lawful_types()
    ensures { TextsGive HasLawfulTypes }
{}

/// The parameters of each operation that a text declares are told apart, case aside.
pub fn texts_give_apart_params()
    ensures { TextsGive HasParamsApart }
{}

/// The operations of each interface that a text declares have names that differ, inherited ones and those of attributes too.
pub fn texts_give_apart_operations()
    ensures { TextsGive HasOperationsApart }
{}

/// The operations of each interface that a text declares begin with those that its bases give, each name once.
pub fn texts_inherit_first()
    ensures { TextsGive HasInheritedFirst }
{}

/// With each thing that a text declares the file has at most 1,048,576 leaves.
pub fn texts_leave_room()
    ensures { TextsGive HasLeavesLeft }
{}

/// A repository takes each thing that a text declares after those before it: all of the above, and nothing else is asked.
pub fn repositories_take_texts()
    ensures { TextsGive MayDeclare }
{}
