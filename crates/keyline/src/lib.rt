// What a key line is decoded to: some command, or none. All that is said of it is in specs/.

#![tactic(auto)]

// The call that a key line makes, with its arguments in the order of the keys. A line that makes none has no command.
#[derive(Clone, Copy, PartialEq, Eq, Drop)]
pub enum Command {
    Add {
        holder: u16,
        exit: u16,
        kind: u16,
        content: u16,
    },
    Link {
        source: u16,
        exit: u16,
        second: u16,
        other: u16,
    },
    Clear {
        step: u16,
        exit: u16,
    },
    Count,
}
