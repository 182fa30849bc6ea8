//! The reader of configurations.
ghost use Rattle.std.specs.Prelude.{◌≡◌, Ok, IfOk, IfErr};
ghost use Rattle.serde_json.specs.View.{view};
ghost use Rattle.serve_config.specs.Reading.{configuration, json_of};
ghost use Rattle.serve_config.specs.Outcome.{Gives, IsDue};

use crate::configs::Config;
use crate::faults::{ConfigFault, Stop};
use crate::refusals::Refusal;
use crate::walk::config_of;
use serde_json::Value;
use std::alloc::Global;

/// The most bytes, 1 MiB.
const MOST_BYTES: usize = 1_048_576;

/// What the bytes mean as JSON (RFC 8259).
fn json_of(alloc: Global, bytes: &[u8]) -> Result<Value, Stop>
    ensures { Gives view result (json_of bytes.now) }
{
    match Value::from_slice(alloc, bytes) {
        Ok(value) => Ok(value),
        Err(error) => {
            if error.is_memory() {
                return Err(Stop::NoMemory);
            }
            Err(Stop::Refused(Refusal::NotJson))
        }
    }
}

fn read(alloc: Global, bytes: &[u8]) -> Result<Config, Stop>
    ensures { Gives (λ config. config) result (configuration bytes.now) }
{
    if MOST_BYTES < bytes.len() {
        return Err(Stop::Refused(Refusal::OutOfRange));
    }
    let value = json_of(alloc, bytes)?;
    config_of(alloc, &value)
}

/// The configuration that the bytes are: JSON text (RFC 8259) with the keys and values of `docs/FORMATS.md`.
///
/// Else the first refusal is answered: 64 above 1 MiB; 60 where they are no JSON; then what is met first on the way through the keys, in the order of their table, 61 to 64; then what is wrong with the whole, in this order: 64, 65, 67, 66, 69, 68.
/// It takes memory for the JSON value and for the configuration.
pub fn read_config(alloc: Global, bytes: &[u8]) -> Result<Config, ConfigFault>
    ensures found { IfOk result (λ config. configuration bytes.now ≡ Ok config) }
    ensures refused { IfErr result (λ fault. IsDue fault (configuration bytes.now)) }
{
    match read(alloc, bytes) {
        Ok(config) => Ok(config),
        Err(Stop::Refused(refusal)) => Err(refusal.into()),
        Err(Stop::NoMemory) => Err(ConfigFault::NoMemory),
    }
}
