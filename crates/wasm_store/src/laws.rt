//! Laws of strips and vessels. They hold of every call there is: each function makes one that is handed to it, and its contract is the law.
ghost use Rattle.std.specs.Prelude.{◌≡◌};
ghost use Rattle.std.specs.Fn.{FnOnceReturnsAtMut};

use crate::strips::Strip;
use crate::vessel::Vessel;
use std::marker::{Send, Sync};

/// Two strips share no byte: whatever a call does to one leaves the other as it was.
pub fn strips_are_apart<F: FnOnce(&mut Strip)>(one: &mut Strip, _other: &mut Strip, call: F)
    requires { F.IsAlwaysCallable call }
    ensures called { FnOnceReturnsAtMut F.FnOnce call one.old tt one.new }
    ensures apart { _other.new ≡ _other.old }
{
    call(one);
}

/// Two vessels share nothing: whatever a call does to one leaves the other as it was.
pub fn vessels_are_apart<F: FnOnce(&mut Vessel)>(one: &mut Vessel, _other: &mut Vessel, call: F)
    requires { F.IsAlwaysCallable call }
    ensures called { FnOnceReturnsAtMut F.FnOnce call one.old tt one.new }
    ensures apart { _other.new ≡ _other.old }
{
    call(one);
}

/// A strip may be sent to another thread, and looked at by several.
pub fn strips_cross_threads(strip: &Strip) {
    crosses_threads(strip);
}

/// So may a vessel.
pub fn vessels_cross_threads(vessel: &Vessel) {
    crosses_threads(vessel);
}

// Takes what may cross threads, and nothing else.
fn crosses_threads<T: Send + Sync>(_value: &T) {}
