//! The lines of the file.

/// What a line asks for.
#[derive(Clone, Copy)]
pub enum Case<'a> {
    /// The answer to a request.
    Turns(Asked<'a>),

    /// The state in which a module begins.
    Fresh {
        module: &'a str,
        pages: u32,
    },

    /// The answers to so many requests.
    Repeat {
        module: &'a str,
        pages: u32,
        count: u64,
    },
}

/// A request, and the quantum of its turns.
#[derive(Clone, Copy)]
pub struct Asked<'a> {
    pub module: &'a str,
    pub body: &'a str,
    pub budget: u64,
    pub quantum: u64,
}

impl<'a> Case<'a> {
    /// The case of a line, if it has one.
    pub fn parse(line: &'a str) -> Option<Case<'a>> {
        let (word, rest) = line.split_once(' ')?;
        let (module, rest) = rest.split_once(' ')?;
        match word {
            "turns" => turns_of(module, rest),
            "fresh" => Some(Case::Fresh {
                module,
                pages: rest.parse().ok()?,
            }),
            "repeat" => {
                let (pages, count) = rest.split_once(' ')?;
                Some(Case::Repeat {
                    module,
                    pages: pages.parse().ok()?,
                    count: count.parse().ok()?,
                })
            }
            _ => None,
        }
    }
}

/// The request of a line, behind its module.
fn turns_of<'a>(module: &'a str, rest: &'a str) -> Option<Case<'a>> {
    let (body, rest) = rest.split_once(' ')?;
    let (budget, quantum) = rest.split_once(' ')?;
    Some(Case::Turns(Asked {
        module,
        body,
        budget: budget.parse().ok()?,
        quantum: quantum.parse().ok()?,
    }))
}
