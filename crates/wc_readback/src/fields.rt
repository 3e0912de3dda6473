//! The fields that the printed text of a module says. Each function only states its law: it does nothing.

ghost use Rattle.std.specs.Prelude.{◌≡◌, ℕ, ◌≤◌, length};
ghost use Rattle.wc_tokens.specs.Standard.Lexemes.{longest};
ghost use Rattle.wc_ast.specs.declared.module.Module.{Module};
ghost use Rattle.wc_print.specs.Standard.Layout.{layout};
ghost use Rattle.wc_print.specs.Standard.Printable.{IsPrintable};
ghost use Rattle.wc_print.specs.Standard.Printed.{text, lexemes};
ghost use Rattle.wc_readback.specs.Grammar.Fitting.{Fits};
ghost use Rattle.wc_parse.specs.Standard.Meaning.{Syn};
ghost use Rattle.wc_parse.specs.Kept.Folds.{Folds};
ghost use Rattle.wc_parse.specs.Kept.Texts.{said};
ghost use Rattle.wc_readback.specs.Fields.Items.{items};
ghost use Rattle.wc_readback.specs.Fields.Surface.{text_fields};

/// The kept tokens of a printed text say its fields, whatever the addresses of their bytes are (Core 1.0, 6.6).
pub fn reread()
    ensures { (addresses : ℕ → ℕ × ℕ) (m : Module) → Fits m → said (items addresses m) ≡ text_fields m }
{}

/// So the tokens of a printed text are a text, whose kept tokens give its fields; and where the text isn't too long,
/// these are the fields that it says.
pub fn printed_says()
    ensures given { (m : Module) → Fits m → IsPrintable (layout m) → Folds (lexemes (layout m)) (text_fields m) }
    ensures says { (m : Module) → Fits m → IsPrintable (layout m) → length (text (layout m)) ≤ longest
        → Syn (lexemes (layout m)) (text_fields m) }
{}
