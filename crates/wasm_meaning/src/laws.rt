//! Laws of the definitions. Each function does nothing: its contract is the law.
ghost use Rattle.std.specs.Prelude.{◌≡◌, ◌≢◌, ◌↔◌, ℕ, ◌+◌, ◌≤◌, ◌<◌, List, [], length, Some, None};
ghost use Rattle.wasm_meaning.specs.Bytes.{stored};
ghost use Rattle.wasm_ops.specs.declared.host_calls.HostName.{HostName};
ghost use Rattle.wasm_meaning.specs.HostCalls.{Streams, host_effect};
ghost use Rattle.wasm_meaning.specs.Laws.{Balances, KeepsHost, Stores, richer, with_more};
ghost use Rattle.wasm_meaning.specs.Pending.{Pending, onward};
ghost use Rattle.wasm_meaning.specs.Programs.{IsProgram};
ghost use Rattle.wasm_meaning.specs.Requests.{Request, Verdict, BudgetSpent, prices, run_of, units, verdict};
ghost use Rattle.wasm_meaning.specs.State.{Instance, Spent, Stuck};
ghost use Rattle.wasm_meaning.specs.Turns.{AreShortest, groups, joined, turns};

/// A store changes just its bytes, and a load after it gives the number modulo its width. It is refused exactly where the bytes leave the memory.
pub fn stores_change_their_bytes()
    ensures stores { (memory : List ℕ) (at width n : ℕ) (after : List ℕ) → stored memory at width n ≡ Some after → Stores memory at width n after }
    ensures refused { (memory : List ℕ) (at width n : ℕ) → (stored memory at width n ≡ None) ↔ (length memory < at + width) }
{}

/// Each call of the host costs at least 1, and keeps the memory's length, the request's body, a position within it, and a reply that has room.
pub fn host_calls_keep_their_bounds()
    ensures keeps { (name : HostName) (arguments memory : List ℕ) (streams : Streams) → KeepsHost memory streams (host_effect name arguments memory streams) }
{}

/// Of whatever is pending: the prices and what is left make the budget; a greater bound than what is left changes nothing; and a run that was not spent is the same with more budget.
pub fn budgets_bound_runs()
    ensures balance { (inst : Instance) (bound : ℕ) (pending : Pending) (left : ℕ) → Balances left (onward inst bound pending left) }
    ensures deeper { (inst : Instance) (pending : Pending) (left bound other : ℕ) → left ≤ bound → left ≤ other → onward inst bound pending left ≡ onward inst other pending left }
    ensures enough { (inst : Instance) (pending : Pending) (left more bound other : ℕ) → left ≤ bound → left + more ≤ other → (onward inst bound pending left).outcome ≢ Spent → onward inst other pending (left + more) ≡ with_more more (onward inst bound pending left) }
{}

/// A request costs no more than its budget. One whose budget was not spent has the same verdict and pays the same prices with more budget.
pub fn requests_keep_their_verdict()
    ensures within { (request : Request) → units request ≤ request.budget }
    ensures same_verdict { (request : Request) (more : ℕ) → verdict request ≢ Some BudgetSpent → verdict (richer more request) ≡ verdict request }
    ensures same_prices { (request : Request) (more : ℕ) → verdict request ≢ Some BudgetSpent → prices (richer more request) ≡ prices request }
{}

/// A request to the program of a valid module is never stuck, whatever its body and its budget, so it has a verdict.
pub fn programs_never_stick()
    ensures free { (request : Request) → IsProgram request.program → (run_of request).outcome ≢ Stuck }
    ensures verdict { (request : Request) → IsProgram request.program → (v : Verdict) × (verdict request ≡ Some v) }
{}

/// The groups of a list of prices are, joined, the list; each but the last is the shortest that reaches the quantum; and no prices are one turn.
pub fn groups_cut_prices()
    ensures whole { (prices : List ℕ) (quantum : ℕ) → joined (groups prices quantum) ≡ prices }
    ensures shortest { (prices : List ℕ) (quantum : ℕ) → 1 ≤ quantum → AreShortest quantum (groups prices quantum) }
    ensures one { (quantum : ℕ) → turns [] quantum ≡ 1 }
{}
