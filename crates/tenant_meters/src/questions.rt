//! A question to what a meter's cell holds.
ghost use Rattle.std.specs.Prelude.{◌≡◌, ◌^◌, ◌≢◌, ◌≤◌};
ghost use Rattle.tenant_meters.specs.Charging.{bucket_in, terms_in};
ghost use Rattle.admission.specs.Metering.{ask};

use crate::callers::Terms;
use crate::charges::Charge;
use admission::{Admission, Meter};

impl Charge {
    // Nothing was asked yet, and the last moment is 0.
    pub(crate) fn first(terms: Terms) -> Charge
        requires { terms.capacity ≤ 2 ^ 40 }
        ensures terms { terms_in result ≡ terms }
        ensures empty { (result.level ≡ 0) × (result.last ≡ 0) }
    {
        Charge {
            capacity: terms.capacity,
            rate: terms.rate,
            level: 0,
            last: 0,
            calls: 0,
            moment: 0,
            estimate: 0,
        }
    }

    // The answer to a question, and what the cell holds behind it.
    pub(crate) fn asked(self, moment: u64, estimate: u64) -> (Admission, Charge)
        requires { estimate ≤ 2 ^ 40 }
        ensures bucket { ask (bucket_in self) moment estimate ≡ (result.0, bucket_in result.1) }
        ensures call { (result.1.moment ≡ moment) × (result.1.estimate ≡ estimate) × (result.1.calls ≢ self.calls) }
    {
        let mut meter = Meter::resume(self.capacity, self.rate, self.level, self.last);
        let answer = meter.admit(moment, estimate);
        let charge = Charge {
            capacity: self.capacity,
            rate: self.rate,
            level: meter.level(),
            last: meter.last(),
            calls: self.calls.wrapping_add(1),
            moment,
            estimate,
        };
        (answer, charge)
    }
}
