//! Small parts of fields.

ghost use Rattle.std.specs.Prelude.{◌≡◌};
ghost use Rattle.wc_parse_field.specs.Drafting.Fields.{first_import, described, with_min, with_max, with_value_type};

use wc_ast::{ExportKind, GlobalType, Limits};
use wc_symbols::Value;
use wc_syntax::Kind;

/// An import field brings something; any other field only where it has the word `import`.
pub(crate) fn first_import(kind: Kind, token: u32) -> Option<u32>
    ensures { result ≡ first_import kind token }
{
    match kind {
        Kind::ImportWord => Some(token),
        _ => None,
    }
}

/// What an import brings or an export lends (Core 1.0, 6.6.4 and 6.6.9).
pub(crate) fn described(kind: Kind, before: ExportKind) -> ExportKind
    ensures { result ≡ described kind before }
{
    match kind {
        Kind::FuncWord => ExportKind::Func,
        Kind::TableWord => ExportKind::Table,
        Kind::MemoryWord => ExportKind::Memory,
        Kind::GlobalWord => ExportKind::Global,
        _ => before,
    }
}

/// With this least size (Core 1.0, 6.4.4).
pub(crate) fn with_min(size: Option<u32>, limits: Limits) -> Limits
    ensures { result ≡ with_min size limits }
{
    match size {
        Some(min) => Limits {
            min,
            max: limits.max,
        },
        None => limits,
    }
}

/// With this greatest size (Core 1.0, 6.4.4).
pub(crate) fn with_max(size: Option<u32>, limits: Limits) -> Limits
    ensures { result ≡ with_max size limits }
{
    match size {
        Some(max) => Limits {
            min: limits.min,
            max: Some(max),
        },
        None => limits,
    }
}

/// With this type of the value (Core 1.0, 6.4.7).
pub(crate) fn with_value_type(value: Value, global: GlobalType) -> GlobalType
    ensures { result ≡ with_value_type value global }
{
    match value {
        Value::ValType(ty) => GlobalType {
            ty,
            mutable: global.mutable,
        },
        _ => global,
    }
}
