//! How a command ends: its status, the text for the output and the line for the notes.

ghost use Rattle.std.specs.Prelude.{◌≡◌, IfOk, string_bytes};
ghost use Rattle.commands.specs.Endings.{Done, answered, config_fault, due, module_fault, not_read, recording_fault, shown, usage};
ghost use Rattle.commands.specs.CheckPlans.{counted, counts_line};
ghost use Rattle.commands.specs.ServeWords.{closed, door_fault, no_thread};
ghost use Rattle.commands.specs.ReplayPlans.{summary_counts, summary_line};
ghost use Rattle.workers.specs.Outcomes.{reported_verdict};

use crate::status::Status;
use crate::texts::OCTET_STREAM;
use http_front::reply_text;
use recorded_runner::{Played, Summary};
use sandbox_states::Answer;
use serve_config::Config;
use std::alloc::{AllocError, Global};
use std::marker::Model;
use workers::outcome;

/// What a command has to say, before any of it is written.
#[derive(Drop)]
pub struct Ending {
    status: Status,
    text: Vec<u8>,
    note: String,
}

impl Model for Ending {
    ghost use Rattle.std.specs.Prelude.{string_bytes};
    ghost use Rattle.commands.specs.Endings.{Due};

    ghost Value = { Due };

    ghost view = { λ e. record {
      status = e.status;
      text = e.text.items;
      note = string_bytes e.note;
    } };
}

impl Ending {
    /// The status, unless the writing fails.
    pub fn status(&self) -> Status
        ensures { result ≡ self.now.status }
    {
        self.status
    }

    /// What is due on the output.
    pub fn text(&self) -> &[u8]
        ensures { result.now ≡ self.now.text }
    {
        self.text.as_slice()
    }

    /// What is due on the notes: one line, or nothing.
    pub fn note(&self) -> &str
        ensures { result.now ≡ self.now.note }
    {
        self.note.as_str()
    }

    /// The words have none of the shapes of a command.
    pub fn usage(alloc: Global) -> Result<Ending, AllocError>
        ensures { IfOk result (λ e. e ≡ due usage) }
    {
        Ok(Ending {
            status: Status::Usage,
            text: Vec::new(alloc),
            note: String::from_str(alloc, "usage\n")?,
        })
    }

    /// The file of this name cannot be read.
    pub fn not_read(alloc: Global, name: &str) -> Result<Ending, AllocError>
        ensures { IfOk result (λ e. e ≡ due (not_read name.now)) }
    {
        Ok(Ending {
            status: Status::ReadFault,
            text: Vec::new(alloc),
            note: format!(in alloc; "read {name}\n")?,
        })
    }

    /// The configuration is refused.
    pub fn config_fault(alloc: Global, number: u8) -> Result<Ending, AllocError>
        ensures { IfOk result (λ e. e ≡ due (config_fault number)) }
    {
        Ok(Ending {
            status: Status::ConfigFault(number),
            text: Vec::new(alloc),
            note: format!(in alloc; "config {number}\n")?,
        })
    }

    /// The module of a route is refused.
    pub fn module_fault(
        alloc: Global,
        route: u32,
        number: u8,
        place: u32,
    ) -> Result<Ending, AllocError>
        ensures { IfOk result (λ e. e ≡ due (module_fault route number place)) }
    {
        Ok(Ending {
            status: Status::ModuleFault {
                route,
                number,
                place,
            },
            text: Vec::new(alloc),
            note: format!(in alloc; "module {number} {route} {place}\n")?,
        })
    }

    /// The recording, or the body of an `invoke`, is refused.
    pub fn recording_fault(alloc: Global, number: u8) -> Result<Ending, AllocError>
        ensures { IfOk result (λ e. e ≡ due (recording_fault number)) }
    {
        Ok(Ending {
            status: Status::RecordingFault(number),
            text: Vec::new(alloc),
            note: format!(in alloc; "recording {number}\n")?,
        })
    }

    /// A text is shown.
    pub fn shown(alloc: Global, text: &str) -> Result<Ending, AllocError>
        ensures { IfOk result (λ e. e ≡ due (shown text.now)) }
    {
        Ok(Ending {
            status: Status::Ok,
            text: Vec::from_slice(alloc, text.as_bytes())?,
            note: String::new(alloc),
        })
    }

    /// A server has closed.
    pub fn closed(alloc: Global) -> Ending
        ensures { result ≡ due closed }
    {
        Ending {
            status: Status::Ok,
            text: Vec::new(alloc),
            note: String::new(alloc),
        }
    }

    /// A thread could not be started.
    pub fn no_thread(alloc: Global) -> Result<Ending, AllocError>
        ensures { IfOk result (λ e. e ≡ due no_thread) }
    {
        Ok(Ending {
            status: Status::NoThread,
            text: Vec::new(alloc),
            note: String::from_str(alloc, "thread\n")?,
        })
    }

    /// A listener or one of its ports failed.
    pub fn door_fault(alloc: Global) -> Result<Ending, AllocError>
        ensures { IfOk result (λ e. e ≡ due door_fault) }
    {
        Ok(Ending {
            status: Status::DoorFault,
            text: Vec::new(alloc),
            note: String::from_str(alloc, "door\n")?,
        })
    }

    /// A configuration and its modules are accepted: how many tenants and routes it has.
    pub fn counted(alloc: Global, config: &Config) -> Result<Ending, AllocError>
        ensures { IfOk result (λ e. e ≡ due (counted config.now)) }
    {
        let line = counts_line(alloc, config.tenants().len(), config.route_count())?;
        Ending::shown(alloc, line.as_str())
    }

    /// A recording was replayed: the text of the replies, and the line of the summary.
    pub fn replayed(alloc: Global, played: Played) -> Result<Ending, AllocError>
        ensures { IfOk result (λ e. e ≡ due
            (Done played.text.items (summary_line played.summary))) }
    {
        let Played { text, summary } = played;
        Ok(Ending {
            status: Status::Ok,
            text,
            note: summary_line(alloc, summary)?,
        })
    }

    /// A load was replayed: the line of the summary, as a text.
    pub fn summed(alloc: Global, summary: Summary) -> Result<Ending, AllocError>
        ensures { IfOk result (λ e. e ≡ due (shown (summary_line summary))) }
    {
        let line = summary_line(alloc, summary)?;
        Ending::shown(alloc, line.as_str())
    }

    /// The program ran: the reply to a kept GET, and what the run cost.
    pub fn answered(alloc: Global, answer: &Answer) -> Result<Ending, AllocError>
        ensures { IfOk result (λ e. e ≡ due
            (answered (reported_verdict answer.now.verdict) answer.now.units)) }
    {
        let units = answer.units();
        Ok(Ending {
            status: Status::Ok,
            text: reply_text(alloc, outcome(answer), OCTET_STREAM, false, true)?,
            note: format!(in alloc; "units {units}\n")?,
        })
    }
}

/// The line that tells how many tenants and routes there are.
fn counts_line(alloc: Global, tenants: usize, routes: u32) -> Result<String, AllocError>
    ensures { IfOk result (λ line. string_bytes line ≡ counts_line tenants routes) }
{
    let line = format!(in alloc; "tenants {tenants} routes {routes}\n")?;
    Ok(line)
}

/// The line of a summary.
fn summary_line(alloc: Global, summary: Summary) -> Result<String, AllocError>
    ensures { IfOk result (λ line. string_bytes line ≡ summary_line summary) }
{
    let counts = summary_counts(alloc, summary)?;
    let (turns, units) = (summary.turns, summary.units);
    let line = format!(in alloc; "{counts} turns {turns} units {units}\n")?;
    Ok(line)
}

/// Its first words: how many items there were, and what became of them.
fn summary_counts(alloc: Global, summary: Summary) -> Result<String, AllocError>
    ensures { IfOk result (λ words. string_bytes words ≡ summary_counts summary) }
{
    let (requests, admitted, started) = (summary.requests, summary.admitted, summary.started);
    let words = format!(in alloc; "requests {requests} admitted {admitted} started {started}")?;
    Ok(words)
}
