//! Why an input is refused, and why a run gave no answer.

use std::alloc::AllocError;
use std::fmt;
use thiserror::Error;
use wc_binary::{BinFault, BinWhy, EncFault};
use wc_check::{CheckFault, CheckWhy, Item};
use wc_read_text::TextFault;
use wc_resolve_code::NameWhy;
use wc_syntax::SynWhy;
use wc_tokens::LexWhy;

/// Why an input has no canonical bytes. It is displayed by its text, which [`render`](crate::render) gives by value.
#[derive(Debug, Drop)]
pub enum Refusal {
    /// The input begins with the byte 00 and is no binary (WebAssembly Core Specification 1.0, chapter 5). `at` is the
    /// byte of its first fault, counted from 0, and `why` says which byte that is.
    Binary { at: u64, why: BinWhy },
    /// Any other input: it isn't made of white space, comments and tokens (6.2 and 6.3). `at` is the byte of its first
    /// fault, and `why` says which byte that is.
    Lex { at: u64, why: LexWhy },
    /// Its tokens are no text of the grammar (6.4 to 6.6), or one with an instruction nested too deep. `token` is the
    /// number, counted from 0, of the first token such that no text, however deep, begins with the tokens up to and
    /// including it, or that names an instruction nested too deep; or the number of all where one is missing. `at` is
    /// its first byte, or the length of the input.
    Syntax { token: u64, at: u64, why: SynWhy },
    /// Its names are wrong (6.6). `token` is the number of the token that `why` says, and `at` is its first byte.
    Names { token: u64, at: u64, why: NameWhy },
    /// The input denotes a module that breaks a rule (WebAssembly Core Specification 1.0, chapter 3): the first item
    /// that breaks one, and the first rule that it breaks.
    Check { item: Item, why: CheckWhy },
    /// The input denotes a module that no bytes spell canonically: a size or a count of it would reach `2^32`.
    Oversize,
    /// A growth of memory was refused.
    Memory,
}

/// Why a run ended without the whole answer. It is displayed in two or three words, without a place.
#[derive(Debug, Drop, Error)]
pub enum RunFault {
    /// The input is refused, never by want of memory. Nothing was written.
    Refused(Refusal),
    /// The reader failed, after it had given `at` bytes. Nothing was written.
    Read { at: u64 },
    /// The writer failed: exactly the first `written` bytes of the answer went out. Where its flush failed, these are
    /// all of them.
    Write { written: u64 },
    /// A growth of memory was refused. Nothing was written.
    Memory,
}

impl fmt::Display for RunFault {
    ghost use Rattle.std.specs.Prelude.{Some};
    ghost use Rattle.wc_canon.specs.Standard.Text.{fault_text};

    ghost output = { λ fault. Some (fault_text fault) };

    fn fmt<W: fmt::Write>(&self, f: &mut fmt::Formatter<W>) -> fmt::Result {
        f.write_str(match self {
            RunFault::Refused(_) => "input refused",
            RunFault::Read { .. } => "read failed",
            RunFault::Write { .. } => "write failed",
            RunFault::Memory => "out of memory",
        })
    }
}

impl From<AllocError> for Refusal {
    ghost use Rattle.std.specs.Prelude.{◌≡◌};
    ghost use Rattle.wc_canon.specs.declared.fault.Refusal.TheVariants.{Memory};

    ghost from_gives = { λ _ refusal. refusal ≡ Memory };

    fn from(_error: AllocError) -> Refusal {
        Refusal::Memory
    }
}

impl From<TextFault> for Refusal {
    ghost use Rattle.std.specs.Prelude.{◌≡◌};
    ghost use Rattle.wc_canon.specs.Answering.Faults.{reading_refusal};

    ghost from_gives = { λ fault refusal. refusal ≡ reading_refusal fault };

    fn from(fault: TextFault) -> Refusal {
        match fault {
            TextFault::Lex { at, why } => Refusal::Lex { at, why },
            TextFault::Syntax { token, at, why } => Refusal::Syntax { token, at, why },
            TextFault::Names { token, at, why } => Refusal::Names { token, at, why },
            TextFault::Memory => Refusal::Memory,
        }
    }
}

impl From<CheckFault> for Refusal {
    ghost use Rattle.std.specs.Prelude.{◌≡◌};
    ghost use Rattle.wc_canon.specs.Answering.Faults.{checking_refusal};

    ghost from_gives = { λ fault refusal. refusal ≡ checking_refusal fault };

    fn from(fault: CheckFault) -> Refusal {
        match fault {
            CheckFault::Broken { item, why } => Refusal::Check { item, why },
            CheckFault::Memory => Refusal::Memory,
        }
    }
}

impl From<EncFault> for Refusal {
    ghost use Rattle.std.specs.Prelude.{◌≡◌};
    ghost use Rattle.wc_canon.specs.Answering.Faults.{encoding_refusal};

    ghost from_gives = { λ fault refusal. refusal ≡ encoding_refusal fault };

    fn from(fault: EncFault) -> Refusal {
        match fault {
            EncFault::Oversize => Refusal::Oversize,
            EncFault::Memory => Refusal::Memory,
        }
    }
}

impl From<AllocError> for RunFault {
    ghost use Rattle.std.specs.Prelude.{◌≡◌};
    ghost use Rattle.wc_canon.specs.declared.fault.RunFault.TheVariants.{Memory};

    ghost from_gives = { λ _ run_fault. run_fault ≡ Memory };

    fn from(_error: AllocError) -> RunFault {
        RunFault::Memory
    }
}

impl From<Refusal> for RunFault {
    ghost use Rattle.std.specs.Prelude.{◌≡◌};
    ghost use Rattle.wc_canon.specs.Answering.Faults.{refusing_fault};

    ghost from_gives = { λ refusal run_fault. run_fault ≡ refusing_fault refusal };

    fn from(refusal: Refusal) -> RunFault {
        match refusal {
            Refusal::Memory => RunFault::Memory,
            refusal => RunFault::Refused(refusal),
        }
    }
}

impl From<TextFault> for RunFault {
    ghost use Rattle.std.specs.Prelude.{◌≡◌};
    ghost use Rattle.wc_canon.specs.Answering.Faults.{reading_refusal, refusing_fault};

    ghost from_gives = { λ fault run_fault. run_fault ≡ refusing_fault (reading_refusal fault) };

    fn from(fault: TextFault) -> RunFault {
        RunFault::from(Refusal::from(fault))
    }
}

impl From<BinFault> for RunFault {
    ghost use Rattle.std.specs.Prelude.{◌≡◌};
    ghost use Rattle.wc_canon.specs.Answering.Faults.{decoding_fault};

    ghost from_gives = { λ fault run_fault. run_fault ≡ decoding_fault fault };

    fn from(fault: BinFault) -> RunFault {
        match fault {
            BinFault::Bad { at, why } => RunFault::Refused(Refusal::Binary { at, why }),
            BinFault::Read { at } => RunFault::Read { at },
            BinFault::Memory => RunFault::Memory,
        }
    }
}
