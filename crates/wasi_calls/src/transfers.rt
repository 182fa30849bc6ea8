//! What calls of `fd_read` and `fd_write` have in common.
ghost use Rattle.std.specs.Prelude.{◌≡◌, ℕ, ◌+◌, ◌*◌, ◌^◌, ◌≤◌, ◌<◌, ◌&&◌, length, nat_lt, if◌then◌else◌, Some, None};
ghost use Rattle.wasm_meaning.specs.Bytes.{bytes_of, with_bytes};
ghost use Rattle.wasm_meaning.specs.HostCalls.{buffer_at, transfer_of, transfer_price};
ghost use Rattle.wasi_calls.specs.Transfers.{buffer_of, transfer_for, lies_apart, IsSurvey};

use crate::iovecs::{Iovec, Survey, range_lies_in};
use wasm_store::Vessel;

/// The arguments of a call.
#[derive(Clone, Copy)]
pub struct StreamCall {
    /// The file descriptor.
    pub descriptor: u32,
    /// The place of the array of iovecs.
    pub iovecs: u32,
    /// How many iovecs it has.
    pub count: u32,
    /// The place where the number of moved bytes goes.
    pub place: u32,
}

/// What was done where the price was not more than what was left.
#[derive(Clone, Copy)]
pub struct Done {
    /// The error number.
    pub errno: u32,
    /// The price.
    pub price: u64,
}

impl StreamCall {
    /// The call with these arguments, the first one first.
    pub fn with_arguments(args: [u32; 4]) -> StreamCall
        ensures { transfer_for result ≡ transfer_of args }
    {
        let [descriptor, iovecs, count, place] = args;
        StreamCall {
            descriptor,
            iovecs,
            count,
            place,
        }
    }

    /// The place of an iovec of the array.
    #[inline(always)]
    pub fn place_of(self, index: u32) -> u64
        ensures { result ≡ self.iovecs + 8 * index }
    {
        u64::from(self.iovecs) + 8 * u64::from(index)
    }

    /// Whether a buffer has no byte of the array.
    #[inline(always)]
    pub fn lies_apart(self, iovec: Iovec) -> bool
        ensures { result ≡ lies_apart (transfer_for self) (buffer_of iovec) }
    {
        u64::from(iovec.at) + u64::from(iovec.count) <= self.place_of(0)
            || self.place_of(self.count) <= u64::from(iovec.at)
    }

    /// Walks over the array, and answers `None` where it, the place of the number of bytes, or a buffer leaves the memory.
    pub fn survey(self, vessel: &Vessel) -> Option<Survey>
        requires { self.count ≤ 1024 }
        ensures { IsSurvey vessel.now.memory (transfer_for self) result }
    {
        if range_lies_in(vessel, self.iovecs, 8 * u64::from(self.count))
            && range_lies_in(vessel, self.place, 4)
        {
            self.survey_array(vessel)
        } else {
            None
        }
    }

    fn survey_array(self, vessel: &Vessel) -> Option<Survey>
        requires few { self.count ≤ 1024 }
        requires array { self.iovecs + 8 * self.count ≤ length vessel.now.memory }
        requires place { self.place + 4 ≤ length vessel.now.memory }
        ensures { IsSurvey vessel.now.memory (transfer_for self) result }
    {
        let mut survey = Survey {
            room: 0,
            apart: true,
        };
        for i in 0..self.count {
            let iovec = Iovec::load(vessel, self.place_of(i));
            if !iovec.lies_in(vessel) {
                return None;
            }
            survey = Survey {
                room: survey.room + u64::from(iovec.count),
                apart: self.stays_apart(survey.apart, iovec),
            };
        }
        Some(survey)
    }

    #[inline(always)]
    fn stays_apart(self, apart: bool, iovec: Iovec) -> bool
        ensures { result ≡ (apart && lies_apart (transfer_for self) (buffer_of iovec)) }
    {
        apart && self.lies_apart(iovec)
    }

    /// Stores the number of moved bytes.
    pub fn store_count(self, vessel: &mut Vessel, bytes: u64)
        requires { self.place + 4 ≤ length vessel.old.memory }
        ensures { vessel.new ≡ record vessel.old { memory = with_bytes vessel.old.memory self.place (bytes_of 4 bytes) } }
    {
        let _ = vessel.store(u64::from(self.place), 4, bytes);
    }
}

impl Done {
    /// A call that failed. `None` where not even its price is left.
    pub fn failed(errno: u32, left: u64) -> Option<Done>
        ensures { result ≡ (if nat_lt left 1 then None else Some (record { errno = errno; price = 1 })) }
    {
        if left < 1 {
            return None;
        }
        Some(Done { errno, price: 1 })
    }
}

/// The price of a call that moved so many bytes.
pub fn price_of_moving(count: u32, bytes: u64) -> u64
    requires { bytes < 2 ^ 32 }
    ensures { result ≡ transfer_price count bytes }
{
    1 + u64::from(count) + bytes / 64
}
