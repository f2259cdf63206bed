//! Laws of the reading of words. The bodies are empty: each contract is a law of the definitions.
ghost use Rattle.std.specs.Prelude.{◌≡◌, ◌++◌, ◌∷◌, [], List, Some, None, codes, option_map};
ghost use Rattle.command_options.specs.Commands.{call_items, idl_items, load_items, names_items, pipe_items, refs_items, serve_items};
ghost use Rattle.command_options.specs.Given.{given};
ghost use Rattle.command_options.specs.Items.{Item, Text};
ghost use Rattle.command_options.specs.Uses.{Use, reading};
ghost use Rattle.command_options.specs.Whole.{IsWhole};
ghost use Rattle.command_options.specs.Words.{form_of, plain};

/// The order of options is free: words in which two options, each written out whole, change places have a reading where they had
/// one, and give the same. So do any that come from them by such changes.
pub fn order_is_free()
    ensures { (items : List Item) (before a b after : List Text) (u v : Use) → IsWhole items a u → IsWhole items b v
        → option_map given (reading items (before ++ (a ++ (b ++ after)))) ≡ option_map given (reading items (before ++ (b ++ (a ++ after)))) }
{}

/// A second use of an option has no reading, whatever other words there are.
pub fn second_use_is_refused()
    ensures { (items : List Item) (before a between b after : List Text) (u v : Use) → IsWhole items a u → IsWhole items b v → u.0 ≡ v.0
        → reading items (before ++ (a ++ (between ++ (b ++ after)))) ≡ None }
{}

/// What each command's words say, written out with all its options: with a value after each name, where no value begins with a
/// dash, and the other way round with `=`.
pub fn commands_are_read_as_written()
    ensures pipe { (file number : Text) → form_of file ≡ plain → form_of number ≡ plain
        → reading pipe_items (codes "--config" ∷ file ∷ codes "--batch" ∷ number ∷ codes "--history" ∷ [])
        ≡ Some ((codes "config", Some file) ∷ (codes "batch", Some number) ∷ (codes "history", None) ∷ []) }
    ensures pipe_joined { (file number : Text)
        → reading pipe_items (codes "--history" ∷ (codes "--batch=" ++ number) ∷ (codes "--config=" ++ file) ∷ [])
        ≡ Some ((codes "history", None) ∷ (codes "batch", Some number) ∷ (codes "config", Some file) ∷ []) }
    ensures pipe_traced { (file number : Text)
        → reading pipe_items (codes "--trace" ∷ (codes "--batch=" ++ number) ∷ (codes "--config=" ++ file) ∷ [])
        ≡ Some ((codes "trace", None) ∷ (codes "batch", Some number) ∷ (codes "config", Some file) ∷ []) }
    ensures serve { (file place : Text) → form_of file ≡ plain → form_of place ≡ plain
        → reading serve_items (codes "--config" ∷ file ∷ codes "--listen" ∷ place ∷ [])
        ≡ Some ((codes "config", Some file) ∷ (codes "listen", Some place) ∷ []) }
    ensures serve_joined { (file place : Text)
        → reading serve_items ((codes "--listen=" ++ place) ∷ (codes "--config=" ++ file) ∷ [])
        ≡ Some ((codes "listen", Some place) ∷ (codes "config", Some file) ∷ []) }
    ensures serve_runs { (file place number : Text) → form_of file ≡ plain → form_of place ≡ plain → form_of number ≡ plain
        → reading serve_items (codes "--config" ∷ file ∷ codes "--listen" ∷ place ∷ codes "--runs" ∷ number ∷ codes "--trace" ∷ [])
        ≡ Some ((codes "config", Some file) ∷ (codes "listen", Some place) ∷ (codes "runs", Some number) ∷ (codes "trace", None) ∷ []) }
    ensures serve_runs_joined { (file place number : Text)
        → reading serve_items (codes "--trace" ∷ (codes "--runs=" ++ number) ∷ (codes "--listen=" ++ place) ∷ (codes "--config=" ++ file) ∷ [])
        ≡ Some ((codes "trace", None) ∷ (codes "runs", Some number) ∷ (codes "listen", Some place) ∷ (codes "config", Some file) ∷ []) }
    ensures names { (place : Text) → form_of place ≡ plain
        → reading names_items (codes "--listen" ∷ place ∷ [])
        ≡ Some ((codes "listen", Some place) ∷ []) }
    ensures names_joined { (place : Text)
        → reading names_items ((codes "--listen=" ++ place) ∷ [])
        ≡ Some ((codes "listen", Some place) ∷ []) }
    ensures refs { (place file : Text) → form_of place ≡ plain → form_of file ≡ plain
        → reading refs_items (codes "--at" ∷ place ∷ codes "--config" ∷ file ∷ [])
        ≡ Some ((codes "at", Some place) ∷ (codes "config", Some file) ∷ []) }
    ensures refs_joined { (place file : Text)
        → reading refs_items ((codes "--config=" ++ file) ∷ (codes "--at=" ++ place) ∷ [])
        ≡ Some ((codes "config", Some file) ∷ (codes "at", Some place) ∷ []) }
    ensures idl { (file : Text) → form_of file ≡ plain
        → reading idl_items (codes "--file" ∷ file ∷ [])
        ≡ Some ((codes "file", Some file) ∷ []) }
    ensures idl_joined { (file : Text)
        → reading idl_items ((codes "--file=" ++ file) ∷ [])
        ≡ Some ((codes "file", Some file) ∷ []) }
    ensures call { (remote op args priority file id number : Text) → form_of remote ≡ plain → form_of op ≡ plain → form_of args ≡ plain
        → form_of priority ≡ plain → form_of file ≡ plain → form_of id ≡ plain → form_of number ≡ plain
        → reading call_items (codes "--ref" ∷ remote ∷ codes "--op" ∷ op ∷ codes "--args" ∷ args ∷ codes "--priority" ∷ priority
        ∷ codes "--idl" ∷ file ∷ codes "--interface" ∷ id ∷ codes "--callers" ∷ number ∷ [])
        ≡ Some ((codes "ref", Some remote) ∷ (codes "op", Some op) ∷ (codes "args", Some args) ∷ (codes "priority", Some priority)
        ∷ (codes "idl", Some file) ∷ (codes "interface", Some id) ∷ (codes "callers", Some number) ∷ []) }
    ensures call_joined { (remote op args priority file id number : Text)
        → reading call_items ((codes "--callers=" ++ number) ∷ (codes "--interface=" ++ id) ∷ (codes "--idl=" ++ file)
        ∷ (codes "--priority=" ++ priority) ∷ (codes "--args=" ++ args) ∷ (codes "--op=" ++ op) ∷ (codes "--ref=" ++ remote) ∷ [])
        ≡ Some ((codes "callers", Some number) ∷ (codes "interface", Some id) ∷ (codes "idl", Some file) ∷ (codes "priority", Some priority)
        ∷ (codes "args", Some args) ∷ (codes "op", Some op) ∷ (codes "ref", Some remote) ∷ []) }
    ensures call_alone { (remote op args priority file id : Text) → form_of remote ≡ plain → form_of op ≡ plain → form_of args ≡ plain
        → form_of priority ≡ plain → form_of file ≡ plain → form_of id ≡ plain
        → reading call_items (codes "--ref" ∷ remote ∷ codes "--op" ∷ op ∷ codes "--args" ∷ args ∷ codes "--priority" ∷ priority
        ∷ codes "--idl" ∷ file ∷ codes "--interface" ∷ id ∷ [])
        ≡ Some ((codes "ref", Some remote) ∷ (codes "op", Some op) ∷ (codes "args", Some args) ∷ (codes "priority", Some priority)
        ∷ (codes "idl", Some file) ∷ (codes "interface", Some id) ∷ []) }
    ensures load { (seed count file batch fragment : Text) → form_of seed ≡ plain → form_of count ≡ plain → form_of file ≡ plain
        → form_of batch ≡ plain → form_of fragment ≡ plain
        → reading load_items (seed ∷ count ∷ codes "--config" ∷ file ∷ codes "--batch" ∷ batch ∷ codes "--fragment" ∷ fragment ∷ [])
        ≡ Some ((codes "seed", Some seed) ∷ (codes "count", Some count) ∷ (codes "config", Some file) ∷ (codes "batch", Some batch)
        ∷ (codes "fragment", Some fragment) ∷ []) }
    ensures load_joined { (seed count file batch fragment : Text) → form_of seed ≡ plain → form_of count ≡ plain
        → reading load_items ((codes "--fragment=" ++ fragment) ∷ seed ∷ (codes "--batch=" ++ batch) ∷ count
        ∷ (codes "--config=" ++ file) ∷ [])
        ≡ Some ((codes "fragment", Some fragment) ∷ (codes "seed", Some seed) ∷ (codes "batch", Some batch) ∷ (codes "count", Some count)
        ∷ (codes "config", Some file) ∷ []) }
{}
