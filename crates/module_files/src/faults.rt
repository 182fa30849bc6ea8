//! Why a file's bytes are made into no program.

/// Why a file's bytes are made into no program.
#[derive(Clone, Copy)]
pub enum Unmade {
    /// They are no module (1 to 24), it breaks a rule (30 to 43), or it is not linked (50 to 56).
    Unfit {
        /// The number of the first refusal.
        number: u8,

        /// Its place in the file, or the index of the item that breaks the rule.
        place: u32,
    },

    /// No memory was left.
    NoMemory,
}
