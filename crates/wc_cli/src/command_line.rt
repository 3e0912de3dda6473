//! What a command line asks for.

ghost use Rattle.std.specs.Prelude.{◌≡◌};
ghost use Rattle.wc_cli.specs.Standard.Acting.{is_raw};

use wc_canon::Job;

/// What is asked of an input.
#[derive(Clone, Copy, Debug)]
pub enum Ask {
    /// Whether it is accepted.
    Check,
    /// Whether it is its own canonical bytes.
    Canonical,
    /// The SHA-256 of its canonical bytes.
    Hash,
}

/// One thing that a command line asks for. Paths are words of the line.
#[derive(Debug, Drop)]
pub enum Line<'a> {
    /// The answer to an input is to be written: to the file at `output`, or else to the standard output.
    Make {
        job: Job,
        input: &'a str,
        output: Option<&'a str>,
    },
    /// What is asked of an input is to be told in one line, with the path in front of a word where it is `named`.
    Tell {
        ask: Ask,
        input: &'a str,
        named: bool,
    },
    /// Whether two inputs denote the same module.
    Compare {
        a: &'a str,
        b: &'a str,
    },
}

impl<'a> Line<'a> {
    /// Whether the answer are bytes that aren't text, and goes to the standard output.
    pub fn is_raw(&self) -> bool
        ensures { result ≡ is_raw self.now }
    {
        match self {
            Line::Make {
                job: Job::Binary,
                output: None,
                ..
            } => true,
            _ => false,
        }
    }
}
