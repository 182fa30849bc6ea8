//! Laws of the definitions. The functions do nothing: their contracts are the laws.
ghost use Rattle.std.specs.Prelude.{◌≡◌, ◌≤◌, ℕ, Bool, false, List, ◌++◌, Ok, IsOk, length, map};
ghost use Rattle.std.specs.List.{AllByRecursion, range_with_len};
ghost use Rattle.outside.specs.Library.{Files};
ghost use Rattle.wasm_meaning.specs.Programs.{Program as ProgramValue};
ghost use Rattle.http_items.specs.Items.{Gives, front};
ghost use Rattle.recorded_arrivals.specs.Arrivals.{arrivals};
ghost use Rattle.recorded_arrivals.specs.Limits.{has_too_many};
ghost use Rattle.serve_config.specs.declared.tenants.Route.{Route as RouteValue};
ghost use Rattle.serve_config.specs.Loading.{loaded};
ghost use Rattle.serve_config.specs.Reading.{configuration};
ghost use Rattle.serve_config.specs.Routing.{all_routes};
ghost use Rattle.generated_load.specs.Asked.{asked_by, arrived_of};
ghost use Rattle.generated_load.specs.Configuration.{soak_configuration, soak_text};
ghost use Rattle.generated_load.specs.Modules.{soak_files};
ghost use Rattle.generated_load.specs.Recording.{IsOwned, soak_links, soak_records};
ghost use Rattle.generated_load.specs.Requests.{request_of};

/// The configuration of the load is what its text means, as that of a file.
pub fn text_is_configuration()
    ensures { configuration soak_text ≡ Ok soak_configuration }
{}

/// The load is one that can be replayed: each of its modules is a program, the programs that are loaded have the pages of their routes, and each connection is that of its one tenant.
pub fn load_is_whole()
    ensures made { IsOk (loaded soak_files 0 (all_routes soak_configuration.tenants)) }
    ensures pages { (files : Files) (number : ℕ) (routes : List RouteValue) (programs : List ProgramValue)
        → loaded files number routes ≡ Ok programs → map (λ p. p.pages) programs ≡ map (λ r. r.pages) routes }
    ensures owned { (start count : ℕ) → AllByRecursion (λ r. IsOwned 1 r.event) (soak_records start count) }
{}

/// The load of so many requests has just so many items, wherever the generator starts. The bytes of each request are a head by the grammar and a body of the length that it tells; so they are one item, which keeps its connection, and what is behind them is not touched. What arrives is these items, in order, each with the piece that brings it: none comes of the ends of the streams, and a load of at most 4,096 requests is never refused for its number of items.
pub fn load_has_its_requests()
    ensures one { (drawn : ℕ) (rest : List ℕ) (ended : Bool) → front (request_of drawn ++ rest) ended ≡ Gives (asked_by drawn) rest }
    ensures all { (start count : ℕ) → arrivals (soak_records start count) ≡ map (arrived_of start (soak_links count)) (range_with_len 0 count) }
    ensures as_many { (start count : ℕ) → length (arrivals (soak_records start count)) ≡ count }
    ensures few { (start count : ℕ) → count ≤ 4096 → has_too_many (soak_records start count) ≡ false }
{}
