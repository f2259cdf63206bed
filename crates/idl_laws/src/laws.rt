//! Laws of the names of a text, each the contract of a call that does nothing.
ghost use Rattle.idl_laws.specs.Apart.{NamesAreApart, OrbIsFree};
ghost use Rattle.idl_laws.specs.Earlier.{DeclarationsStay};
ghost use Rattle.idl_laws.specs.Laws.{LooksUp, NamesMean};

/// No scope of a text has two names alike, case aside, and the file's scope has none that is `Orb`, case aside.
pub fn names_are_apart()
    ensures apart { NamesAreApart }
    ensures orb { OrbIsFree }
{}

/// At each point of a text a name means what looking it up gives over the declarations before that point: in a scope,
/// then in the bases of that interface in order, then outwards.
pub fn names_are_looked_up()
    ensures { LooksUp }
{}

/// Each name of a text in the place of a base, a type, a value or an exception means what looking it up gives over the
/// declarations before it, part by part, and that declaration is what is used.
pub fn names_mean_what_is_before()
    ensures { NamesMean }
{}

/// What is declared before a point of a text stays: at each later point, and so in the finished table, each of these
/// declarations has the same number, scope, spelling and place, and is the same once its end has been read.
pub fn declarations_stay()
    ensures { DeclarationsStay }
{}
