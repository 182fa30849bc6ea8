//! The statuses with which a command ends, and the exit status of the process for each.

ghost use Rattle.std.specs.Prelude.{◌≡◌};

/// How a command ended.
///
/// Each status but `Ok` is a refusal or a fault; the process ends with `code`, and but for a
/// `WriteFault` the notes have one line that says the same.
#[derive(Clone, Copy)]
pub enum Status {
    /// The command was carried out and all that it had to say was written.
    Ok,
    /// The words have none of the shapes of a command, or a number among them is ill spelt.
    Usage,
    /// A file could not be read, or there is none of its name.
    ReadFault,
    /// The configuration is refused with this number.
    ConfigFault(u8),
    /// The module of this route (0 for `invoke`) is refused with this number at this place.
    ModuleFault { route: u32, number: u8, place: u32 },
    /// The recording, or the body of an `invoke`, is refused with this number.
    RecordingFault(u8),
    /// What was due could not be written.
    WriteFault,
    /// Memory ran out before anything was written to the output.
    NoMemory,
    /// A thread could not be started.
    NoThread,
    /// A listener or one of its ports failed.
    DoorFault,
}

impl Status {
    ghost use Rattle.commands.specs.Statuses.{exit_code};

    /// The exit status of the process.
    pub fn code(self) -> u8
        ensures { result ≡ exit_code self }
    {
        match self {
            Status::Ok => 0,
            Status::Usage => 2,
            Status::ReadFault => 3,
            Status::ConfigFault(_) => 4,
            Status::ModuleFault { .. } => 5,
            Status::RecordingFault(_) => 6,
            Status::WriteFault => 7,
            Status::NoMemory => 8,
            Status::NoThread => 9,
            Status::DoorFault => 10,
        }
    }
}
