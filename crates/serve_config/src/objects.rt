//! The objects of a configuration, each with the table of its keys.
ghost use Rattle.std.specs.Prelude.{◌≡◌, string_bytes};
ghost use Rattle.std.specs.List.{list_all};
ghost use Rattle.std.specs.BTreeMap.{keys};
ghost use Rattle.serde_json.specs.View.{view};
ghost use Rattle.serve_config.specs.Kinds.{is_among, object_of};
ghost use Rattle.serve_config.specs.Objects.{keys_of};

use crate::refusals::Refusal;
use serde_json::{Map, Value};

/// An object of a configuration.
#[derive(Clone, Copy, Debug, PartialEq, Eq)]
pub(crate) enum Object {
    /// A route of a tenant.
    Route,

    /// A tenant.
    Tenant,

    /// The whole.
    Top,
}

impl Object {
    /// Whether the object may have the key.
    fn has_key(self, key: &str) -> bool
        ensures { result ≡ is_among (keys_of self) key.now }
    {
        match self {
            Object::Route => match key {
                "path" | "module" | "budget" | "pages" | "estimate" | "deadline" | "content_type" =>
                    true,
                _ => false,
            },
            Object::Tenant => match key {
                "name" | "port" | "capacity" | "rate" | "routes" => true,
                _ => false,
            },
            Object::Top => match key {
                "workers" | "quantum" | "policy" | "berths" | "clerks" | "tenants" => true,
                _ => false,
            },
        }
    }

    /// Whether the object may have all of these keys.
    fn has_keys(self, members: &Map<String, Value>) -> bool
        ensures { result ≡ list_all (λ key. is_among (keys_of self) (string_bytes key)) (keys members.now) }
    {
        members.keys().all(|key| self.has_key(key.as_str()))
    }

    /// That a value is an object with keys of this table alone.
    #[tactic(auto, using(crate::proofs::Members::has_only_is))]
    pub(crate) fn accepts(self, value: &Value) -> Result<(), Refusal>
        ensures { result ≡ object_of (keys_of self) (view value.now) }
    {
        let Some(members) = value.as_object() else {
            return Err(Refusal::WrongKind);
        };
        if !self.has_keys(members) {
            return Err(Refusal::UnknownKey);
        }
        Ok(())
    }
}
