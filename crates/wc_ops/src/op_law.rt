//! Laws of the tables. Each function only states its law: it does nothing.

ghost use Rattle.std.specs.Prelude.{◌≡◌, ◌↔◌, ℕ, List, Some};
ghost use Rattle.wc_ops.specs.Standard.ByteMeaning.{IsOpByte};
ghost use Rattle.wc_ops.specs.Standard.NameMeaning.{IsOpName};
ghost use Rattle.wc_ops.specs.Standard.Opcodes.{row};
ghost use Rattle.wc_ops.specs.Standard.ValueTypes.{value_type_byte, value_type_of_byte};
ghost use Rattle.wc_ops.specs.Reading.OpcodeMeaning.{meaning};
ghost use Rattle.wc_ops.specs.declared.op.Op.{Op};
ghost use Rattle.wc_ops.specs.declared.op.OpByte.{OpByte};
ghost use Rattle.wc_ops.specs.declared.op.OpByte.TheVariants as bytes;
ghost use Rattle.wc_ops.specs.declared.op.OpName.{OpName};
ghost use Rattle.wc_ops.specs.declared.op.OpName.TheVariants as names;
ghost use Rattle.wc_ops.specs.declared.val_type.ValType.{ValType};

use crate::op::Op;

/// A byte has one meaning, and so has a word.
pub fn one_meaning()
    ensures byte { (byte : ℕ) (x y : OpByte) → IsOpByte byte x → IsOpByte byte y → x ≡ y }
    ensures name { (word : List ℕ) (x y : OpName) → IsOpName word x → IsOpName word y → x ≡ y }
{}

/// A byte leads to a value type exactly where it is that type's byte.
pub fn value_types_lead_back()
    ensures { (byte : ℕ) (t : ValType) → (value_type_of_byte byte ≡ Some t) ↔ (value_type_byte t ≡ byte) }
{}

/// What is computed of a byte is what the table of opcodes says of it: so whoever reads that table needs no other.
pub fn meaning_is_the_table()
    ensures { (byte : ℕ) → IsOpByte byte (meaning byte) }
{}

/// An instruction's opcode and its name lead back to it.
pub fn leads_back()
    ensures byte { (op : Op) (x : OpByte) → IsOpByte (row op).byte x → x ≡ bytes.Known op }
    ensures name { (op : Op) (x : OpName) → IsOpName (row op).name x → x ≡ names.Known op }
{}

/// No two instructions share an opcode or a name.
pub fn rows_differ(a: Op, b: Op)
    ensures byte { (row a).byte ≡ (row b).byte → a ≡ b }
    ensures name { (row a).name ≡ (row b).name → a ≡ b }
{
    let _ = Op::of_byte(a.byte());
    let _ = Op::of_name(a.name());
}
