//! Which language a text is in.

/// A language whose texts are cut into tokens. Both have the same names, numbers, texts and comments.
#[derive(Clone, Copy, Debug, PartialEq, Eq)]
pub enum Dialect {
    /// IDL: CORBA 3.0.3, section 3.2.
    Idl,
    /// The scripts of servants: own profile.
    Script,
}
