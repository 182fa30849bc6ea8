//! What a meter's cell holds.
ghost use Rattle.std.specs.Prelude.{◌^◌, ◌≤◌};

use crossbeam_utils::atomic::Words;

// A meter's terms and the state of its bucket, with the latest call: how many there were, its moment and its estimate.
//
// The call lies in the cell so that the words tell which one was made; the number of calls, which wraps, tells one that changes nothing else from none.
#[derive(Clone, Copy, PartialEq, Eq)]
pub(crate) struct Charge {
    pub capacity: u64,
    pub rate: u64,
    pub level: u64,
    pub last: u64,
    pub calls: u64,
    pub moment: u64,
    pub estimate: u64,
    ghost kept: { level ≤ capacity },
    ghost few: { capacity ≤ 2 ^ 40 },
}

impl Words<7> for Charge {
    ghost use Rattle.tenant_meters.specs.Charging.{words_of};

    ghost words = { words_of };

    fn to_words(self) -> [u64; 7] {
        [
            self.capacity,
            self.rate,
            self.level,
            self.last,
            self.calls,
            self.moment,
            self.estimate,
        ]
    }

    fn from_words(bits: &[u64; 7]) -> Charge {
        Charge {
            capacity: bits[0],
            rate: bits[1],
            level: bits[2],
            last: bits[3],
            calls: bits[4],
            moment: bits[5],
            estimate: bits[6],
        }
    }
}
