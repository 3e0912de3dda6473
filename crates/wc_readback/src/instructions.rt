//! What printed instructions say, before their names are resolved. The function only states its law: it does nothing.

ghost use Rattle.std.specs.Prelude.{◌≡◌, ℕ};
ghost use Rattle.wc_body.specs.Standard.Nested.{Code};
ghost use Rattle.wc_body.specs.Standard.InstructionBytes.{FitsExpr};
ghost use Rattle.wc_body.specs.declared.instr.BlockType.{BlockType as HeadType};
ghost use Rattle.wc_body.specs.declared.instr.Instr.{Instr as Instruction};
ghost use Rattle.wc_readback.specs.Grammar.InstructionSigns.{code_signs};
ghost use Rattle.wc_readback.specs.Grammar.Kept.{said_from};
ghost use Rattle.wc_parse_code.specs.Drafting.Ending.{nothing_said, ended};
ghost use Rattle.wc_readback.specs.Instructions.Bodies.{text_body};
ghost use Rattle.wc_readback.specs.Instructions.Words.{taken};

/// The kept tokens of printed instructions say these instructions, wherever they stand in the text and whatever the
/// addresses of their bytes are (Core 1.0, 6.5).
pub fn told_body()
    ensures { (addresses : ℕ → ℕ × ℕ) (token : ℕ) (code : Code Instruction HeadType) → FitsExpr code
        → ended (taken addresses nothing_said (said_from token (code_signs code))) ≡ text_body token code }
{}
