//! The printed text of a module is a text of the grammar, and what each of its tokens says. Each function here only
//! states its law: it does nothing.

mod fitting;

ghost use Rattle.std.specs.List.{AllByRecursion};
ghost use Rattle.wc_ast.specs.declared.module.Module.{Module};
ghost use Rattle.wc_body.specs.Standard.Nested.{nesting_limit};
ghost use Rattle.wc_syntax.specs.Standard.Parsing.{IsText};
ghost use Rattle.wc_print.specs.Standard.Printed.{lexemes};
ghost use Rattle.wc_print.specs.Standard.Layout.{layout};
ghost use Rattle.wc_readback.specs.Grammar.Fitting.{Fits};
ghost use Rattle.wc_readback.specs.Grammar.Kept.{AreSymbols, StandsIn, symbols, kinds, said, events};

pub use fitting::module_fits;

/// Each token of a printed text is what the layout meant by it (Core 1.0, 6.3).
pub fn printed_symbols()
    ensures { (m : Module) → Fits m → AreSymbols (lexemes (layout m)) (symbols m) }
{}

/// The tokens of a printed text are a text of the grammar (Core 1.0, 6.4 to 6.6), of which these are kept.
pub fn printed_is_text()
    ensures { (m : Module) → Fits m → IsText nesting_limit (kinds m) (events m) }
{}

/// Each kept token stands at its number among the tokens of the text, with its bytes and what it is to the grammar.
pub fn printed_words()
    ensures { (m : Module) → AllByRecursion (StandsIn (lexemes (layout m)) (symbols m)) (said m) }
{}
