//! A law of what the link gives to be sent. The body is empty: the contract is a law of the definitions.
ghost use Rattle.std.specs.Prelude.{◌≡◌, ◌∷◌, ◌++◌, ℕ};
ghost use Rattle.giop_messages.specs.Message.{Request};
ghost use Rattle.client_mux.specs.declared.call.MuxCall.TheVariants as call;
ghost use Rattle.client_mux.specs.declared.call.MuxReply.TheVariants as reply;
ghost use Rattle.client_mux.specs.Machine.{Mux, One, History, Opens};
ghost use Rattle.client_mux.specs.Callers.{IsShort};
ghost use Rattle.client_mux.specs.Exchange.{IsLegal, AreFit};

/// Each request that a Next hands out is short enough for a message, since each is one that a caller started.
#[tactic(auto, using(crate::proofs::ShortSends::given_short))]
pub fn sent_requests_are_short()
    ensures { (x : Mux) (before after : History) (e : One) (id : ℕ) (q : Request) → Opens x → IsLegal x (before ++ e ∷ after)
        → AreFit x (before ++ e ∷ after) → e.call ≡ call.Next → e.reply ≡ reply.Send id q → IsShort q }
{}
