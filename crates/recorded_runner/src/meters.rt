//! The meters of all tenants.
ghost use Rattle.std.specs.Prelude.{◌≡◌, map, IfOk};
ghost use Rattle.std.specs.List.{AllByRecursion};
ghost use Rattle.serve_config.specs.Ranges.{IsTenantInRange};
ghost use Rattle.recorded_runner.specs.Fates.{meter_of};

use admission::Meter;
use serve_config::Tenant;
use std::alloc::{AllocError, Global};

/// An empty meter for each tenant, in order.
pub(crate) fn meters_of(alloc: Global, tenants: &[Tenant]) -> Result<Vec<Meter>, AllocError>
    requires in_range { AllByRecursion IsTenantInRange tenants.now }
    ensures { IfOk result (λ meters. meters.items ≡ map meter_of tenants.now) }
{
    let mut meters = Vec::with_capacity(alloc, tenants.len())?;
    for tenant in tenants {
        meters.push(Meter::new(tenant.capacity, tenant.rate))?;
    }
    Ok(meters)
}
