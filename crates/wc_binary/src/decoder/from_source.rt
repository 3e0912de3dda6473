//! What is read of a source.

ghost use Rattle.wc_binary.specs.Standard.Phrase.{Phrase};
ghost use Rattle.wc_binary.specs.Reading.Source.{Gives};

use crate::fault::BinFault;
use crate::source::Source;
use std::alloc::Global;

/// A value that is read by a phrase of its own.
pub trait FromSource: Sized {
    ghost phrase: { Phrase Self };

    fn read<S: Source>(alloc: Global, source: &mut S) -> Result<Self, BinFault>
        ensures { Gives phrase (S.input source.old) (S.input source.new) result };
}
