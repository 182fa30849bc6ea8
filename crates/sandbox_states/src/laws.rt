//! Laws of turns. The function does nothing: its contract is the law.
ghost use Rattle.std.specs.Prelude.{ℕ};
ghost use Rattle.wasm_meaning.specs.Requests.{Request};
ghost use Rattle.sandbox_states.specs.Onward.{RunsFor};
ghost use Rattle.sandbox_states.specs.Stands.{AnswersFor, AnswersIn, IsLastTurn, IsOneTurn, StandsFor, StandsInTurns};
ghost use Rattle.sandbox_states.specs.Views.{FinishedView, SandboxView};

/// A turn keeps what its sandbox stands for, whatever its quantum, and the last one answers the request. Where all turns had one quantum, the turns are the request's too.
pub fn turns_keep()
    ensures stands { (request : Request) (quantum : ℕ) (old new : SandboxView) → StandsFor request old → IsOneTurn quantum old new → StandsFor request new }
    ensures answers { (request : Request) (quantum : ℕ) (old : SandboxView) (new : FinishedView) → StandsFor request old → IsLastTurn quantum old new → AnswersFor request new.verdict new.units }
    ensures one { (request : Request) (quantum : ℕ) (old new : SandboxView) → StandsInTurns request quantum old → IsOneTurn quantum old new → StandsInTurns request quantum new }
    ensures last { (request : Request) (quantum : ℕ) (old : SandboxView) (new : FinishedView) → StandsInTurns request quantum old → IsLastTurn quantum old new → AnswersIn request quantum new.verdict new.units new.turns }
{}

/// Where a sandbox stands for a request, the onward run of what is pending in it gives this request's verdict and the rest of its prices. `Sandbox::units` gives the premise of any sandbox.
pub fn onward_runs()
    ensures onward { (request : Request) (s : SandboxView) → StandsFor request s → RunsFor s.request s → RunsFor request s }
{}
