//! Laws of the definitions. Each function does nothing: its contract is the law.
ghost use Rattle.std.specs.Prelude.{◌≡◌, ◌⊎◌, ◌↔◌, ℕ, List, None, Some, Result, Ok, Err};
ghost use Rattle.outside.specs.Faults.{Rose};
ghost use Rattle.outside.specs.Library.{Files};
ghost use Rattle.wasm_meaning.specs.Programs.{Program};
ghost use Rattle.serve_config.specs.declared.tenants.Route.{Route as RouteValue};
ghost use Rattle.serve_config.specs.declared.tenants.Tenant.{Tenant as TenantValue};
ghost use Rattle.serve_config.specs.Configuration.{Configuration};
ghost use Rattle.serve_config.specs.Ranges.{IsInRange};
ghost use Rattle.serve_config.specs.Overview.{first_fault};
ghost use Rattle.serve_config.specs.Whole.{IsWhole};
ghost use Rattle.serve_config.specs.Reading.{configuration};
ghost use Rattle.serve_config.specs.Loaded.{HasFailed};
ghost use Rattle.serve_config.specs.Loading.{HavePrograms, IsFirstWithNone, LoadsAll, NotRead, Unloaded, loaded};
ghost use Rattle.serve_config.specs.Routing.{HasNumber, route_number};

use outside::Library;

/// What is accepted as a configuration has each of its numbers and texts in the range that `docs/FORMATS.md` names, 1 to 64 tenants and as many routes a tenant among them (`IsInRange`). Nothing is wrong with it as a whole: at most 64 routes together, no name, port or path of a tenant twice, the letters of paths and content types, and memories of at most 1 GiB (`IsWhole`). So it is one that a `Config` may be.
pub fn configurations_fit()
    ensures in_range { (bytes : List ℕ) (c : Configuration)
        → configuration bytes ≡ Ok c → IsInRange c }
    ensures faultless { (bytes : List ℕ) (c : Configuration)
        → configuration bytes ≡ Ok c → first_fault c.berths c.tenants ≡ None }
    ensures whole { (bytes : List ℕ) (c : Configuration)
        → configuration bytes ≡ Ok c → IsWhole c }
{}

/// The number of a path's route is its place among the routes of all tenants, and the route there has the path.
pub fn routes_are_numbered()
    ensures { (tenants : List TenantValue) (tenant : ℕ) (path : List ℕ) (number : ℕ)
        → route_number tenants tenant path ≡ Some number → HasNumber tenants path number }
{}

/// What is loaded over files: the programs, exactly where the file of each route is held and comes to one; and why there are none, exactly by the first route in order whose file is not held (`NotRead`), or is held and refused (`IsUnfit`), where the file of each route before it comes to its program.
pub fn loads_are_told()
    ensures programs { (files : Files) (first : ℕ) (routes : List RouteValue) (programs : List Program)
        → (loaded files first routes ≡ Ok programs) ↔ HavePrograms files routes programs }
    ensures first { (files : Files) (first : ℕ) (routes : List RouteValue) (why : Unloaded)
        → (loaded files first routes ≡ Err why) ↔ IsFirstWithNone files first routes why }
{}

/// What the reads of `load_programs` come to (`LoadsAll`), by what their library tells.
pub fn loads_are_due<L: Library>()
    // Over a library that tells its files it is what is loaded over these, or a read failed and was counted.
    ensures told { (files : Files) (first : ℕ) (routes : List RouteValue) (old new : L) (came : Result (List Program) Unloaded)
        → (L.state old).held ≡ Some files → LoadsAll L.gave first routes old new came
        → (came ≡ loaded files first routes) ⊎ HasFailed came (L.state old).faults (L.state new).faults }

    // Over one that tells nothing a file is unread only where the count of faults rose.
    ensures untold { (first : ℕ) (routes : List RouteValue) (old new : L) (route : ℕ)
        → (L.state old).held ≡ None → LoadsAll L.gave first routes old new (Err (NotRead route))
        → Rose (L.state old).faults (L.state new).faults }
{}
