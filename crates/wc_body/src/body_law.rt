//! Laws of bodies. Each function only states its law: it does nothing.

ghost use Rattle.std.specs.Prelude.{◌≡◌, ◌↔◌, List};
ghost use Rattle.wc_body.specs.Standard.Entries.{marks};
ghost use Rattle.wc_body.specs.Standard.Nested.{Code, flatten};
ghost use Rattle.wc_body.specs.declared.entry.Entry.{Entry};
ghost use Rattle.wc_body.specs.declared.instr.BlockType.{BlockType};
ghost use Rattle.wc_body.specs.declared.instr.Instr.{Instr};

/// Two bodies have the same entries exactly if the same instructions are nested in them.
pub fn entries_tell_bodies()
    ensures code { (a b : Code Instr BlockType) → (flatten a ≡ flatten b) ↔ (a ≡ b) }
    ensures entries { (x y : List Entry) → marks x ≡ marks y → x ≡ y }
{}
