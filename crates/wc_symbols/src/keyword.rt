//! Keywords and the names of types.

ghost use Rattle.std.specs.Prelude.{◌≡◌, length, MatchOption};
ghost use Rattle.wc_ops.specs.declared.val_type.ValType.{ValType as ValueType};
ghost use Rattle.wc_syntax.specs.declared.kind.Kind.{Kind as TokenKind};
ghost use Rattle.wc_symbols.specs.Standard.Names.{KeywordIs};
ghost use Rattle.wc_symbols.specs.Standard.Symbols.{bare, valued};
ghost use Rattle.wc_symbols.specs.declared.symbol.Symbol.{Symbol as Token};

use crate::symbol::{Symbol, Value, bare, valued};
use wc_ops::ValType;
use wc_syntax::Kind;

/// Keywords and float types of three letters.
fn of_length_3(word: &str) -> Option<Kind>
    requires { length word.now ≡ 3 }
    ensures { MatchOption result ((k : TokenKind) → ¬ (KeywordIs word.now (bare k)))
        (λ k. KeywordIs word.now (bare k)) }
{
    match word {
        "end" => Some(Kind::EndWord),
        "mut" => Some(Kind::MutWord),
        "f32" => Some(Kind::FloatType),
        "f64" => Some(Kind::FloatType),
        _ => None,
    }
}

/// Keywords of four letters.
fn of_length_4(word: &str) -> Option<Kind>
    requires { length word.now ≡ 4 }
    ensures { MatchOption result ((k : TokenKind) → ¬ (KeywordIs word.now (bare k)))
        (λ k. KeywordIs word.now (bare k)) }
{
    match word {
        "then" => Some(Kind::ThenWord),
        "else" => Some(Kind::ElseWord),
        "type" => Some(Kind::TypeWord),
        "func" => Some(Kind::FuncWord),
        "elem" => Some(Kind::ElemWord),
        "data" => Some(Kind::DataWord),
        _ => None,
    }
}

/// Keywords of five letters.
fn of_length_5(word: &str) -> Option<Kind>
    requires { length word.now ≡ 5 }
    ensures { MatchOption result ((k : TokenKind) → ¬ (KeywordIs word.now (bare k)))
        (λ k. KeywordIs word.now (bare k)) }
{
    match word {
        "table" => Some(Kind::TableWord),
        "start" => Some(Kind::StartWord),
        "local" => Some(Kind::LocalWord),
        "param" => Some(Kind::ParamWord),
        _ => None,
    }
}

/// Keywords of six letters.
fn of_length_6(word: &str) -> Option<Kind>
    requires { length word.now ≡ 6 }
    ensures { MatchOption result ((k : TokenKind) → ¬ (KeywordIs word.now (bare k)))
        (λ k. KeywordIs word.now (bare k)) }
{
    match word {
        "module" => Some(Kind::ModuleWord),
        "import" => Some(Kind::ImportWord),
        "memory" => Some(Kind::MemoryWord),
        "global" => Some(Kind::GlobalWord),
        "export" => Some(Kind::ExportWord),
        "offset" => Some(Kind::OffsetWord),
        "result" => Some(Kind::ResultWord),
        _ => None,
    }
}

/// Keywords of seven letters.
fn of_length_7(word: &str) -> Option<Kind>
    requires { length word.now ≡ 7 }
    ensures { MatchOption result ((k : TokenKind) → ¬ (KeywordIs word.now (bare k)))
        (λ k. KeywordIs word.now (bare k)) }
{
    match word {
        "funcref" => Some(Kind::FuncrefWord),
        _ => None,
    }
}

/// The kind of a word that is a keyword or the name of a float type. It takes no memory.
#[inline(always)]
pub fn keyword_kind(word: &str) -> Option<Kind>
    ensures { MatchOption result ((k : TokenKind) → ¬ (KeywordIs word.now (bare k)))
        (λ k. KeywordIs word.now (bare k)) }
{
    match word.len() {
        3 => of_length_3(word),
        4 => of_length_4(word),
        5 => of_length_5(word),
        6 => of_length_6(word),
        7 => of_length_7(word),
        _ => None,
    }
}

/// The type that a word is the name of. It takes no memory.
#[inline(always)]
pub fn type_named(word: &str) -> Option<ValType>
    ensures { MatchOption result ((t : ValueType) → ¬ (KeywordIs word.now (valued Kind.ValType (Value.ValType t))))
        (λ t. KeywordIs word.now (valued Kind.ValType (Value.ValType t))) }
{
    match word {
        "i32" => Some(ValType::I32),
        "i64" => Some(ValType::I64),
        _ => None,
    }
}

/// What a word says as a keyword or as the name of a type.
#[inline(always)]
pub fn keyword(word: &str) -> Option<Symbol>
    ensures { MatchOption result ((s : Token) → ¬ (KeywordIs word.now s)) (λ s. KeywordIs word.now s) }
{
    if let Some(kind) = keyword_kind(word) {
        return Some(bare(kind));
    }
    match type_named(word) {
        Some(ty) => Some(valued(Kind::ValType, Value::ValType(ty))),
        None => None,
    }
}
