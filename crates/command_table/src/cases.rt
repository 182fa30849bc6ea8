//! The lines of a block.

/// Which gate the turns of a command pass.
#[derive(Clone, Copy)]
pub enum GateKind {
    /// `OpenGate`, which does nothing.
    Open,

    /// One that holds workers until it has seen a take-over.
    Held,

    /// One that notes each pass.
    Noted,
}

/// What a line asks for.
#[derive(Clone, Copy)]
pub enum Case<'a> {
    /// It lays a file.
    File,

    /// To carry out a command.
    Run(Asked<'a>),

    /// To refuse one for want of memory, with the calls of both outputs that fail.
    Refused { out: &'a str, notes: &'a str },
}

/// A command: its gate, which calls fail, and its words between blanks.
#[derive(Clone, Copy)]
pub struct Asked<'a> {
    pub gate: GateKind,
    pub read: &'a str,
    pub out: &'a str,
    pub notes: &'a str,
    pub words: &'a str,
}

impl<'a> Case<'a> {
    /// What a line asks for, if it asks for something.
    pub fn parse(line: &'a str) -> Option<Case<'a>> {
        let (word, rest) = line.split_once(' ')?;
        match word {
            "file" => Some(Case::File),
            "run" => Some(Case::Run(Asked::parse(rest)?)),
            "memory" => {
                let (out, notes) = rest.split_once(' ')?;
                Some(Case::Refused { out, notes })
            }
            _ => None,
        }
    }
}

impl<'a> Asked<'a> {
    fn parse(rest: &'a str) -> Option<Asked<'a>> {
        let (gate, rest) = rest.split_once(' ')?;
        let (read, rest) = rest.split_once(' ')?;
        let (out, rest) = rest.split_once(' ')?;
        let (notes, words) = rest.split_once(' ')?;
        let gate = match gate {
            "open" => GateKind::Open,
            "held" => GateKind::Held,
            "noted" => GateKind::Noted,
            _ => return None,
        };
        Some(Asked {
            gate,
            read,
            out,
            notes,
            words,
        })
    }
}
