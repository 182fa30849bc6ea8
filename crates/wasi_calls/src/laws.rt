//! Laws of calls of the host. Each function does nothing: its contract is the law.
ghost use Rattle.std.specs.Prelude.{◌≡◌, ℕ};
ghost use Rattle.wasm_meaning.specs.HostCalls.{Streams};
ghost use Rattle.wasm_meaning.specs.Pending.{Pending};
ghost use Rattle.wasm_meaning.specs.Programs.{Program};
ghost use Rattle.wasm_ops.specs.declared.host_calls.HostCall.{HostCall};
ghost use Rattle.wasm_states.specs.Holding.{Holds};
ghost use Rattle.wasm_states.specs.HostCalls.{IsHost, effect_of};
ghost use Rattle.wasm_store.specs.View.{View};
ghost use Rattle.wasi_calls.specs.Answers.{HostAnswers};
ghost use Rattle.wasi_calls.specs.Laws.{RunsAs};
ghost use Rattle.wasi_calls.specs.declared.calls.HostStep.{HostStep};

/// Where a program goes on with a call of the host, `host` does just what the call is in the meaning of the program: one operator, whose price is paid. What was pending is over with the code, or its rest is pending in the vessel and the streams behind the call, or what is left does not pay for it.
pub fn host_calls_are_operators()
    ensures runs { (p : Program) (w : Pending) (v v' : View) (s' : Streams) (call : HostCall) (left : ℕ) (result : HostStep) → IsHost p v call → Holds p v w → HostAnswers call left (effect_of call v w.state.store.streams) v v' w.state.store.streams s' result → RunsAs p w left v' s' result }
{}
