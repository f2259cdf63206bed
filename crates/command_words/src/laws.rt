//! Laws of what words mean. The bodies are empty: each contract is a law of the definitions.
ghost use Rattle.std.specs.Prelude.{◌≡◌, ◌++◌, ◌∷◌, [], List, Some, None, codes, false, true, option_map};
ghost use Rattle.orb_base.specs.NulFree.{HasNoNul};
ghost use Rattle.object_lines.specs.Addresses.{address_of};
ghost use Rattle.pipe_runs.specs.declared.shown.Shown.TheVariants as shown;
ghost use Rattle.command_options.specs.Items.{Text};
ghost use Rattle.command_options.specs.Numbers.{number_of};
ghost use Rattle.command_options.specs.Uses.{Use};
ghost use Rattle.command_options.specs.Whole.{IsWhole};
ghost use Rattle.command_options.specs.Words.{form_of, plain};
ghost use Rattle.command_words.specs.declared.meaning.Meaning.TheVariants.{Unread};
ghost use Rattle.command_words.specs.Meanings.{called, listed, loaded, named_at, piped, planned, refs_at, served_at};
ghost use Rattle.command_words.specs.Numbers.{batch_of, callers_of, count_of, fragment_of, priority_of, runs_of};
ghost use Rattle.command_words.specs.Words.{Command, command_named, command_of};

/// The order of options is free: words in which two options of a command, each written out whole, change places mean the same. So do
/// any that come from them by such changes.
pub fn order_is_free()
    ensures { (name : Text) (command : Command) (before a b after : List Text) (u v : Use) → command_named name ≡ Some command
        → IsWhole command.items a u → IsWhole command.items b v
        → command_of (name ∷ (before ++ (a ++ (b ++ after)))) ≡ command_of (name ∷ (before ++ (b ++ (a ++ after)))) }
{}

/// Words with a second use of an option have no reading, whatever other words there are.
pub fn second_use_is_refused()
    ensures { (name : Text) (command : Command) (before a between b after : List Text) (u v : Use) → command_named name ≡ Some command
        → IsWhole command.items a u → IsWhole command.items b v → u.0 ≡ v.0
        → command_of (name ∷ (before ++ (a ++ (between ++ (b ++ after))))) ≡ Unread }
{}

/// What each command's words mean, written out with all its options: with a value after each name, where no value begins with a
/// dash, and the other way round with `=`; no value holds a NUL. What isn't the number or the address that it has to be has no
/// reading, by `piped`, `served_at`, `named_at`, `refs_at`, `called` and `planned`.
pub fn commands_mean_what_they_say()
    ensures pipe { (file number : Text) → form_of file ≡ plain → form_of number ≡ plain → HasNoNul file → HasNoNul number
        → command_of (codes "pipe" ∷ codes "--config" ∷ file ∷ codes "--batch" ∷ number ∷ codes "--history" ∷ [])
        ≡ piped (Some file) (batch_of number) (Some shown.Text) }
    ensures pipe_joined { (file number : Text) → HasNoNul file → HasNoNul number
        → command_of (codes "pipe" ∷ codes "--history" ∷ (codes "--batch=" ++ number) ∷ (codes "--config=" ++ file) ∷ [])
        ≡ piped (Some file) (batch_of number) (Some shown.Text) }
    ensures pipe_traced { (file number : Text) → HasNoNul file → HasNoNul number
        → command_of (codes "pipe" ∷ codes "--trace" ∷ (codes "--batch=" ++ number) ∷ (codes "--config=" ++ file) ∷ [])
        ≡ piped (Some file) (batch_of number) (Some shown.Trace) }
    ensures serve { (file place : Text) → form_of file ≡ plain → form_of place ≡ plain → HasNoNul file → HasNoNul place
        → command_of (codes "serve" ∷ codes "--config" ∷ file ∷ codes "--listen" ∷ place ∷ [])
        ≡ served_at (Some file) (address_of place) (Some 1) false }
    ensures serve_joined { (file place : Text) → HasNoNul file → HasNoNul place
        → command_of (codes "serve" ∷ (codes "--listen=" ++ place) ∷ (codes "--config=" ++ file) ∷ [])
        ≡ served_at (Some file) (address_of place) (Some 1) false }
    ensures serve_runs { (file place number : Text) → form_of file ≡ plain → form_of place ≡ plain → form_of number ≡ plain
        → HasNoNul file → HasNoNul place → HasNoNul number
        → command_of (codes "serve" ∷ codes "--config" ∷ file ∷ codes "--listen" ∷ place ∷ codes "--runs" ∷ number ∷ codes "--trace" ∷ [])
        ≡ served_at (Some file) (address_of place) (runs_of number) true }
    ensures serve_runs_joined { (file place number : Text) → HasNoNul file → HasNoNul place → HasNoNul number
        → command_of (codes "serve" ∷ codes "--trace" ∷ (codes "--runs=" ++ number) ∷ (codes "--listen=" ++ place)
        ∷ (codes "--config=" ++ file) ∷ [])
        ≡ served_at (Some file) (address_of place) (runs_of number) true }
    ensures names { (place : Text) → form_of place ≡ plain → HasNoNul place
        → command_of (codes "names" ∷ codes "--listen" ∷ place ∷ [])
        ≡ named_at (address_of place) }
    ensures names_joined { (place : Text) → HasNoNul place
        → command_of (codes "names" ∷ (codes "--listen=" ++ place) ∷ [])
        ≡ named_at (address_of place) }
    ensures refs { (place file : Text) → form_of place ≡ plain → form_of file ≡ plain → HasNoNul place → HasNoNul file
        → command_of (codes "refs" ∷ codes "--at" ∷ place ∷ codes "--config" ∷ file ∷ [])
        ≡ refs_at (address_of place) (Some file) }
    ensures refs_joined { (place file : Text) → HasNoNul place → HasNoNul file
        → command_of (codes "refs" ∷ (codes "--config=" ++ file) ∷ (codes "--at=" ++ place) ∷ [])
        ≡ refs_at (address_of place) (Some file) }
    ensures idl { (file : Text) → form_of file ≡ plain → HasNoNul file
        → command_of (codes "idl" ∷ codes "--file" ∷ file ∷ [])
        ≡ listed (Some file) }
    ensures idl_joined { (file : Text) → HasNoNul file
        → command_of (codes "idl" ∷ (codes "--file=" ++ file) ∷ [])
        ≡ listed (Some file) }
    ensures call { (remote op args priority file id number : Text) → form_of remote ≡ plain → form_of op ≡ plain → form_of args ≡ plain
        → form_of priority ≡ plain → form_of file ≡ plain → form_of id ≡ plain → form_of number ≡ plain → HasNoNul remote → HasNoNul op
        → HasNoNul args → HasNoNul priority → HasNoNul file → HasNoNul id → HasNoNul number
        → command_of (codes "call" ∷ codes "--ref" ∷ remote ∷ codes "--op" ∷ op ∷ codes "--args" ∷ args ∷ codes "--priority" ∷ priority
        ∷ codes "--idl" ∷ file ∷ codes "--interface" ∷ id ∷ codes "--callers" ∷ number ∷ [])
        ≡ called (Some remote) (Some op) (Some args) (option_map Some (priority_of priority)) (Some file) (Some id)
        (option_map Some (callers_of number)) }
    ensures call_joined { (remote op args priority file id number : Text) → HasNoNul remote → HasNoNul op → HasNoNul args
        → HasNoNul priority → HasNoNul file → HasNoNul id → HasNoNul number
        → command_of (codes "call" ∷ (codes "--callers=" ++ number) ∷ (codes "--interface=" ++ id) ∷ (codes "--idl=" ++ file)
        ∷ (codes "--priority=" ++ priority) ∷ (codes "--args=" ++ args) ∷ (codes "--op=" ++ op) ∷ (codes "--ref=" ++ remote) ∷ [])
        ≡ called (Some remote) (Some op) (Some args) (option_map Some (priority_of priority)) (Some file) (Some id)
        (option_map Some (callers_of number)) }
    ensures call_alone { (remote op args priority file id : Text) → form_of remote ≡ plain → form_of op ≡ plain → form_of args ≡ plain
        → form_of priority ≡ plain → form_of file ≡ plain → form_of id ≡ plain → HasNoNul remote → HasNoNul op → HasNoNul args
        → HasNoNul priority → HasNoNul file → HasNoNul id
        → command_of (codes "call" ∷ codes "--ref" ∷ remote ∷ codes "--op" ∷ op ∷ codes "--args" ∷ args ∷ codes "--priority" ∷ priority
        ∷ codes "--idl" ∷ file ∷ codes "--interface" ∷ id ∷ [])
        ≡ called (Some remote) (Some op) (Some args) (option_map Some (priority_of priority)) (Some file) (Some id) (Some None) }
    ensures load { (seed count file batch fragment : Text) → form_of seed ≡ plain → form_of count ≡ plain → form_of file ≡ plain
        → form_of batch ≡ plain → form_of fragment ≡ plain → HasNoNul seed → HasNoNul count → HasNoNul file → HasNoNul batch
        → HasNoNul fragment
        → command_of (codes "load" ∷ seed ∷ count ∷ codes "--config" ∷ file ∷ codes "--batch" ∷ batch ∷ codes "--fragment" ∷ fragment
        ∷ [])
        ≡ loaded (Some file) (planned (number_of seed) (count_of count) (batch_of batch) (option_map Some (fragment_of fragment))) }
    ensures load_joined { (seed count file batch fragment : Text) → form_of seed ≡ plain → form_of count ≡ plain → HasNoNul seed
        → HasNoNul count → HasNoNul file → HasNoNul batch → HasNoNul fragment
        → command_of (codes "load" ∷ (codes "--fragment=" ++ fragment) ∷ seed ∷ (codes "--batch=" ++ batch) ∷ count
        ∷ (codes "--config=" ++ file) ∷ [])
        ≡ loaded (Some file) (planned (number_of seed) (count_of count) (batch_of batch) (option_map Some (fragment_of fragment))) }
{}
