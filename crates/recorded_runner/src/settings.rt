//! What the batch of a replay is run with.
ghost use Rattle.std.specs.Prelude.{◌≡◌, ◌+◌, ◌*◌, ◌≤◌};
ghost use Rattle.serve_config.specs.Routing.{all_routes};
ghost use Rattle.workers.specs.Batches.{IsWithinLimits};
ghost use Rattle.recorded_runner.specs.Serving.{AreRoomy};

use serve_config::Config;
use workers::Settings;

/// The settings that a configuration has for a batch, and for a server: its workers, quantum, policy and berths, each berth of the largest pages that a route has.
pub fn settings_of(config: &Config) -> Settings
    ensures workers { result.workers ≡ config.now.workers }
    ensures quantum { result.quantum ≡ config.now.quantum }
    ensures policy { result.policy ≡ config.now.policy }
    ensures berths { result.berths ≡ config.now.berths }
    ensures roomy { AreRoomy result.pages (all_routes config.now.tenants) }
    ensures limits { IsWithinLimits result }
{
    Settings {
        workers: config.workers,
        quantum: config.quantum,
        policy: config.policy,
        berths: config.berths,
        pages: largest_pages(config),
    }
}

/// The pages of the route that has most. One berth more than the configuration's has at most 1 GiB with these pages each.
fn largest_pages(config: &Config) -> u32
    ensures roomy { AreRoomy result (all_routes config.now.tenants) }
    ensures some { 1 ≤ result }
    ensures room { (config.now.berths + 1) * result ≤ 16384 }
{
    // What each configuration keeps bounds the berths and their pages.
    let _tenants = config.tenants();
    let mut most = 1;
    for number in 0..config.route_count() {
        most = most.max(config.route(number).pages);
    }
    most
}
