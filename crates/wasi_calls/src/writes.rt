//! `fd_write`: the bytes of buffers go to the reply, or nowhere.
ghost use Rattle.std.specs.Prelude.{◌≡◌, ℕ, ◌+◌, ◌*◌, ◌^◌, ◌<◌, ◌≤◌, ◌++◌, length, true, false};
ghost use Rattle.wasm_meaning.specs.HostCalls.{listed, reaches, gathered, room_of, writes_to, overflows, write_error, write, written};
ghost use Rattle.wasi_calls.specs.Answers.{Moves};
ghost use Rattle.wasi_calls.specs.Transfers.{transfer_for, Surveyed, IsWriteCheck};

use crate::errnos::{BAD_FILE_DESCRIPTOR, FAULT, INVALID_ARGUMENT, SUCCESS, TOO_LARGE};
use crate::iovecs::{Iovec, MOST_IOVECS, Survey};
use crate::streams::{MOST_REPLY_BYTES, Streams};
use crate::transfers::{Done, StreamCall, price_of_moving};
use wasm_store::Vessel;

/// Writes (WASI preview1, `fd_write`), and answers `None` where the price is more than what is left: then nothing changes.
pub fn write_reply(
    call: StreamCall,
    vessel: &mut Vessel,
    streams: &mut Streams,
    left: u64,
) -> Option<Done>
    ensures { Moves left (write (write_error vessel.old.memory streams.old.reply (transfer_for call)) vessel.old.memory (transfer_for call) streams.old) vessel.old vessel.new streams.old streams.new result }
{
    match call.check_write(vessel, streams) {
        Ok(survey) => call.write_checked(survey, vessel, streams, left),
        Err(errno) => Done::failed(errno, left),
    }
}

impl StreamCall {
    // The first check that fails, or what is known of the buffers.
    fn check_write(self, vessel: &Vessel, streams: &Streams) -> Result<Survey, u32>
        ensures { IsWriteCheck vessel.now.memory streams.now.reply (transfer_for self) result }
    {
        if self.count > MOST_IOVECS {
            return Err(INVALID_ARGUMENT);
        }
        if !self.writes() {
            return Err(BAD_FILE_DESCRIPTOR);
        }
        let Some(survey) = self.survey(vessel) else {
            return Err(FAULT);
        };
        if self.overflows(streams, survey.room) {
            return Err(TOO_LARGE);
        }
        Ok(survey)
    }

    fn writes(self) -> bool
        ensures { result ≡ writes_to self.descriptor }
    {
        self.descriptor == 1 || self.descriptor == 2
    }

    fn overflows(self, streams: &Streams, room: u64) -> bool
        requires { room ≤ 1024 * 2 ^ 32 }
        ensures { result ≡ overflows streams.now.reply self.descriptor room }
    {
        if self.descriptor == 1 {
            u64::from(MOST_REPLY_BYTES) < u64::from(streams.written()) + room
        } else {
            room >= 4_294_967_296
        }
    }

    fn write_checked(
        self,
        survey: Survey,
        vessel: &mut Vessel,
        streams: &mut Streams,
        left: u64,
    ) -> Option<Done>
        requires surveyed { Surveyed vessel.old.memory (transfer_for self) survey }
        requires fits { overflows streams.old.reply self.descriptor survey.room ≡ false }
        ensures { Moves left (write None vessel.old.memory (transfer_for self) streams.old) vessel.old vessel.new streams.old streams.new result }
    {
        let price = price_of_moving(self.count, survey.room);
        if price > left {
            return None;
        }
        self.gather(vessel, streams);
        self.store_count(vessel, survey.room);
        Some(Done {
            errno: SUCCESS,
            price,
        })
    }

    // Adds the bytes of the buffers to the reply, if it is the reply that they are written to.
    fn gather(self, vessel: &Vessel, streams: &mut Streams)
        requires reaches { reaches vessel.now.memory (transfer_for self) ≡ true }
        requires fits { overflows streams.old.reply self.descriptor (room_of (listed vessel.now.memory (transfer_for self))) ≡ false }
        ensures { streams.new ≡ written self.descriptor (gathered vessel.now.memory (listed vessel.now.memory (transfer_for self))) streams.old }
    {
        if self.descriptor == 1 {
            self.gather_reply(vessel, streams);
        }
    }

    fn gather_reply(self, vessel: &Vessel, streams: &mut Streams)
        requires reaches { reaches vessel.now.memory (transfer_for self) ≡ true }
        requires fits { length streams.old.reply + room_of (listed vessel.now.memory (transfer_for self)) ≤ 65536 }
        ensures { streams.new ≡ record streams.old { reply = streams.old.reply ++ gathered vessel.now.memory (listed vessel.now.memory (transfer_for self)) } }
    {
        for i in 0..self.count {
            let iovec = Iovec::load(vessel, self.place_of(i));
            streams.append(iovec.bytes(vessel));
        }
    }
}
