//! Laws of configurations, each the contract of a call that does nothing.
ghost use Rattle.std.specs.Prelude.{◌≡◌, ◌≢◌, ℕ, List, None, true, All, AllPairs};
ghost use Rattle.toml.specs.Data.{Members};
ghost use Rattle.orb_base.specs.Apart.{are_apart};
ghost use Rattle.adapter_policies.specs.Configuration.{Configures, first_fault};
ghost use Rattle.adapter_policies.specs.Document.{document_of};
ghost use Rattle.adapter_policies.specs.Lawful.{HoldsTogether};
ghost use Rattle.adapter_policies.specs.SetupData.{SetupData};

/// A document without a fault holds together: each relation between its tables holds, as a reader would say it.
#[tactic(auto, using(crate::proofs::Together::no_fault_holds))]
pub fn documents_without_a_fault_hold_together()
    ensures { (ms : Members) → first_fault ms ≡ None → HoldsTogether (document_of ms) }
{}

/// No two bands of an adapter of a configuration share a priority, so that a reader of a reference finds them.
pub fn configured_bands_are_apart()
    ensures { (bytes : List ℕ) (setup : SetupData) → Configures bytes setup → All (λ a. are_apart a.bands ≡ true) setup.adapters }
{}

/// No two objects of a configuration have one key.
pub fn configured_keys_differ()
    ensures { (bytes : List ℕ) (setup : SetupData) → Configures bytes setup → AllPairs (λ a b. a.key ≢ b.key) setup.objects }
{}
