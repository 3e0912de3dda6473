//! The printed text of a module with its names resolved, and the way back to the module. Each function here only states
//! its law: it does nothing.

mod few_locals;
mod printing;

ghost use Rattle.std.specs.Prelude.{◌≡◌, ◌≤◌, [], ℕ, List as Seq, Option as Maybe, map, length};
ghost use Rattle.wc_ast.specs.declared.module.Module.{Module};
ghost use Rattle.wc_body.specs.Standard.Nested.{Code};
ghost use Rattle.wc_body.specs.declared.instr.BlockType.{BlockType as HeadType};
ghost use Rattle.wc_body.specs.declared.instr.Instr.{Instr as Instruction};
ghost use Rattle.wc_check.specs.Standard.Broken.{broken};
ghost use Rattle.wc_print.specs.Standard.Layout.{layout};
ghost use Rattle.wc_print.specs.Standard.Printable.{IsPrintable};
ghost use Rattle.wc_print.specs.Standard.Printed.{text};
ghost use Rattle.wc_tokens.specs.Standard.Lexemes.{longest};
ghost use Rattle.wc_resolve_code.specs.Standard.Contexts.{Context};
ghost use Rattle.wc_resolve_code.specs.Standard.Bodies.{resolved, body_faults};
ghost use Rattle.wc_declare.specs.Standard.Stages.{declaration_faults, all_use_faults};
ghost use Rattle.wc_declare.specs.Standard.Types.{types_of};
ghost use Rattle.wc_declare.specs.Standard.Uses.{use_index};
ghost use Rattle.wc_resolve.specs.Standard.Denoted.{Names};
ghost use Rattle.wc_readback.specs.Instructions.Bodies.{text_body};
ghost use Rattle.wc_readback.specs.Fields.Surface.{text_fields};
ghost use Rattle.wc_readback.specs.Grammar.Fitting.{Fits};
ghost use Rattle.wc_read_text.specs.Standard.Texts.{Txt};
ghost use Rattle.wc_readback.specs.Names.Known.{HasFewLocals, Known, KnownCode};

pub use few_locals::module_has_few_locals;
pub use printing::text_of;

/// Where a module breaks no rule (Core 1.0, 3.4) and its printed text isn't too long, its names are known.
pub fn checked_is_known()
    ensures { (m : Module) → broken m ≡ [] → HasFewLocals m → IsPrintable (layout m)
        → length (text (layout m)) ≤ longest → Known m }
{}

/// The declarations of a printed text have no fault (Core 1.0, 6.6.13): it has no identifiers, and imports come first.
pub fn printed_declarations()
    ensures { (m : Module) → Known m → declaration_faults (text_fields m) ≡ [] }
{}

/// The types of a printed text are those of the module, and no type use has a fault (Core 1.0, 6.6.3).
pub fn printed_types()
    ensures types { (m : Module) → Known m → types_of (text_fields m) ≡ m.types }
    ensures uses { (m : Module) → Known m → all_use_faults (text_fields m) ≡ [] }
{}

/// The printed instructions of a body are its instructions, whatever is declared around them, and no name in them has a
/// fault (Core 1.0, 6.5).
pub fn printed_bodies()
    ensures same { (c : Context) (ids : Seq (Maybe (Seq ℕ))) (types : Seq (Seq ℕ)) (n : ℕ) (token : ℕ)
        (code : Code Instruction HeadType) → KnownCode n code
        → c.uses ≡ map (use_index ids types) (text_body token code).uses
        → resolved c (text_body token code) ≡ code }
    ensures faultless { (c : Context) (n : ℕ) (token : ℕ) (code : Code Instruction HeadType) → KnownCode n code
        → body_faults c (text_body token code) ≡ [] }
{}

/// The fields of a printed text denote the module that was printed, and their names have no fault (Core 1.0, 6.6).
pub fn printed_names()
    ensures { (m : Module) → Known m → Names (text_fields m) m }
{}

/// Where a module breaks no rule (Core 1.0, 3.4), its printed text is a text of the module, if it isn't too long.
pub fn back()
    ensures { (m : Module) → Fits m → HasFewLocals m → broken m ≡ [] → IsPrintable (layout m)
        → length (text (layout m)) ≤ longest → Txt (text (layout m)) m }
{}
