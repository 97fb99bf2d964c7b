//! What the notation means: which bytes spell which tree, which trees are scripts, which words are commands, and how
//! a refusal is written.
//!
//! Everything is defined in `specs/`, on plain lists and numbers, and computes. This file has the small types that
//! the definitions share with code.
#![tactic(auto)]

/// What a byte of a text is, read from the left.
#[derive(Clone, Copy)]
pub enum TextByte {
    /// An item of the text, as the byte that it stands for.
    Item(u8),
    /// A backslash, which begins an escape.
    Backslash,
    /// The quote that ends the text.
    Quote,
    /// No item begins with it, or ends with it behind a backslash.
    Unsound,
}

/// A command that words can ask for.
#[derive(Clone, Copy)]
pub enum Command {
    /// Runs a script on one domain, in at most so many steps.
    Mock(u32),
    /// Runs a script on its domains, each of at most so many lines.
    Domains(u32),
    /// Says whether the input is a script.
    Check,
    /// Writes a script in its canonical spelling.
    Print,
    /// Runs the generated script of so many forks.
    Load(u32),
    /// Checks a history of a script against that script, each domain of at most so many lines.
    Verify(u32),
    /// Writes the tree in which the forms of lists and of the mocked network are written out.
    Expand,
    /// Runs path calls on a directory that the input tells.
    Paths,
    /// Writes a script with the newest version of the notation.
    Migrate,
}

/// A group of forms or commands that is built at one time.
#[derive(Clone, Copy)]
pub enum Feature {
    /// `main`, `switch`, `fork`, `trace` of one or more texts, `yield`; the command `mock` without options.
    FirstForms,
    /// The commands `check` and `print`.
    Reading,
    /// The option of `mock`.
    Steps,
    /// Variables, expressions, exceptions, loops and cancellation.
    Exceptions,
    /// The rest of the switches: failures, daemons, release handlers.
    Switches,
    /// Groups of fibers: `both`, `all`, `first`, `any`.
    Groups,
    /// Streams and promises; the command `load`.
    StreamsAndPromises,
    /// Semaphores, mutexes, pools and the clock.
    Resources,
    /// Flows, their readers and writers.
    Flows,
    /// Directories and paths.
    Paths,
    /// The command `domains`.
    Domains,
    /// Executors and their jobs.
    Executors,
    /// The command `verify`.
    Histories,
    /// The command `expand`.
    Lists,
    /// The command `paths`.
    Folders,
    /// The second version of the notation; the command `migrate`.
    Versions,
}

/// How many of a thing the scripts of a version of the notation may have, and their runs.
#[derive(Clone, Copy)]
pub struct Limits {
    /// Declarations of a script.
    pub declarations: u32,
    /// Bodies of a script, main among them.
    pub bodies: u32,
    /// Fibers that live at once in a domain.
    pub fibers: u32,
    /// Contexts that live at once in a domain.
    pub contexts: u32,
    /// Jobs that an executor queues, for each body of the script.
    pub jobs: u32,
}
