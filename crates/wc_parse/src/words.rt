//! Words of a text, token by token.
//!
//! Each function takes one more word, the token of this number. The error is the first fault, or want of memory. Names
//! of instructions and numbers, of which there are most, are told from each other first.

ghost use Rattle.std.specs.Prelude.{◌≡◌, ◌<◌, ◌^◌, IfErr, OnOk};
ghost use Rattle.wc_tokens.specs.Standard.Lexemes.{HasForm};
ghost use Rattle.wc_tokens.specs.Standard.Tokens.{lexeme_of};
ghost use Rattle.wc_tokens.specs.declared.token.TokenKind.TheVariants as tokens;
ghost use Rattle.wc_syntax.specs.declared.kind.Kind.TheVariants as kinds;
ghost use Rattle.wc_symbols.specs.Standard.Tokens.{TokenIs};
ghost use Rattle.wc_parse.specs.Kept.SaidSoFar.{SaysMore, Refuses};

use crate::fault::SynFault;
use crate::taking::{keep, take_any, take_kept};
use crate::text_draft::TextDraft;
use std::alloc::Global;
use wc_symbols::{
    Symbol, Value, symbol_of, symbol_of_keyword, symbol_of_name, symbol_of_number, symbol_of_type,
    usual_keyword, usual_name, usual_number, usual_type,
};
use wc_syntax::{Kind, Reading, Role};
use wc_tokens::Token;

/// The name of a block, a loop or an if.
#[inline(always)]
fn take_begin<'a>(
    alloc: Global,
    reading: &mut Reading,
    draft: &mut TextDraft<'a>,
    at: usize,
    token: &Token<'a>,
    symbol: Symbol,
) -> Result<(), SynFault>
    requires few { at < 2 ^ 32 }
    requires form { HasForm token.now.kind token.now.text.now }
    requires kind { token.now.kind ≡ tokens.Word }
    requires symbol { TokenIs token.now.kind token.now.text.now symbol }
    ensures said { OnOk result (SaysMore (lexeme_of token.now) at reading.old draft.old reading.new draft.new) }
    ensures fault { IfErr result (Refuses (lexeme_of token.now) at reading.old draft.old) }
{
    if reading.take_begin(symbol.kind)? {
        keep(draft, Role::Begin, at, symbol, token.text)?;
        return Ok(());
    }
    take_any(alloc, reading, draft, at, token, symbol)
}

/// The name of an instruction.
#[inline(always)]
fn take_name<'a>(
    alloc: Global,
    reading: &mut Reading,
    draft: &mut TextDraft<'a>,
    at: usize,
    token: &Token<'a>,
    symbol: Symbol,
) -> Result<(), SynFault>
    requires few { at < 2 ^ 32 }
    requires form { HasForm token.now.kind token.now.text.now }
    requires kind { token.now.kind ≡ tokens.Word }
    requires symbol { TokenIs token.now.kind token.now.text.now symbol }
    ensures said { OnOk result (SaysMore (lexeme_of token.now) at reading.old draft.old reading.new draft.new) }
    ensures fault { IfErr result (Refuses (lexeme_of token.now) at reading.old draft.old) }
{
    if reading.take_plain(symbol.kind) {
        keep(draft, Role::Plain, at, symbol, token.text)?;
        return Ok(());
    }
    if reading.take_held(symbol.kind)? {
        keep(draft, Role::HeldPlain, at, symbol, token.text)?;
        return Ok(());
    }
    take_begin(alloc, reading, draft, at, token, symbol)
}

/// A number.
#[inline(always)]
fn take_number<'a>(
    alloc: Global,
    reading: &mut Reading,
    draft: &mut TextDraft<'a>,
    at: usize,
    token: &Token<'a>,
    symbol: Symbol,
) -> Result<(), SynFault>
    requires few { at < 2 ^ 32 }
    requires form { HasForm token.now.kind token.now.text.now }
    requires kind { token.now.kind ≡ tokens.Word }
    requires symbol { TokenIs token.now.kind token.now.text.now symbol }
    ensures said { OnOk result (SaysMore (lexeme_of token.now) at reading.old draft.old reading.new draft.new) }
    ensures fault { IfErr result (Refuses (lexeme_of token.now) at reading.old draft.old) }
{
    if reading.take_index(symbol.kind) {
        keep(draft, Role::Index, at, symbol, token.text)?;
        return Ok(());
    }
    if reading.take_literal(symbol.kind) {
        keep(draft, Role::Literal, at, symbol, token.text)?;
        return Ok(());
    }
    if reading.take_type_index(symbol.kind) {
        keep(draft, Role::TypeIndex, at, symbol, token.text)?;
        return Ok(());
    }
    take_any(alloc, reading, draft, at, token, symbol)
}

/// A number that is no short natural one, mostly one behind a sign.
// It is apart from `take_number`, so that each is called once, and none is too large for the compiler to put it in
// place.
#[inline(always)]
fn take_signed<'a>(
    alloc: Global,
    reading: &mut Reading,
    draft: &mut TextDraft<'a>,
    at: usize,
    token: &Token<'a>,
    symbol: Symbol,
) -> Result<(), SynFault>
    requires few { at < 2 ^ 32 }
    requires form { HasForm token.now.kind token.now.text.now }
    requires kind { token.now.kind ≡ tokens.Word }
    requires symbol { TokenIs token.now.kind token.now.text.now symbol }
    ensures said { OnOk result (SaysMore (lexeme_of token.now) at reading.old draft.old reading.new draft.new) }
    ensures fault { IfErr result (Refuses (lexeme_of token.now) at reading.old draft.old) }
{
    if reading.take_literal(symbol.kind) {
        keep(draft, Role::Literal, at, symbol, token.text)?;
        return Ok(());
    }
    take_any(alloc, reading, draft, at, token, symbol)
}

/// The offset of a load or a store.
#[inline(always)]
fn take_offset<'a>(
    alloc: Global,
    reading: &mut Reading,
    draft: &mut TextDraft<'a>,
    at: usize,
    token: &Token<'a>,
    symbol: Symbol,
) -> Result<(), SynFault>
    requires few { at < 2 ^ 32 }
    requires form { HasForm token.now.kind token.now.text.now }
    requires kind { token.now.kind ≡ tokens.Word }
    requires symbol { TokenIs token.now.kind token.now.text.now symbol }
    ensures said { OnOk result (SaysMore (lexeme_of token.now) at reading.old draft.old reading.new draft.new) }
    ensures fault { IfErr result (Refuses (lexeme_of token.now) at reading.old draft.old) }
{
    if reading.take_offset(symbol.kind) {
        keep(draft, Role::MemOffset, at, symbol, token.text)?;
        return Ok(());
    }
    take_any(alloc, reading, draft, at, token, symbol)
}

/// The alignment of a load or a store.
#[inline(always)]
fn take_align<'a>(
    alloc: Global,
    reading: &mut Reading,
    draft: &mut TextDraft<'a>,
    at: usize,
    token: &Token<'a>,
    symbol: Symbol,
) -> Result<(), SynFault>
    requires few { at < 2 ^ 32 }
    requires form { HasForm token.now.kind token.now.text.now }
    requires kind { token.now.kind ≡ tokens.Word }
    requires symbol { TokenIs token.now.kind token.now.text.now symbol }
    ensures said { OnOk result (SaysMore (lexeme_of token.now) at reading.old draft.old reading.new draft.new) }
    ensures fault { IfErr result (Refuses (lexeme_of token.now) at reading.old draft.old) }
{
    if reading.take_align(symbol.kind) {
        keep(draft, Role::MemAlign, at, symbol, token.text)?;
        return Ok(());
    }
    take_any(alloc, reading, draft, at, token, symbol)
}

/// The word `end`.
#[inline(always)]
fn take_end<'a>(
    alloc: Global,
    reading: &mut Reading,
    draft: &mut TextDraft<'a>,
    at: usize,
    token: &Token<'a>,
    symbol: Symbol,
) -> Result<(), SynFault>
    requires few { at < 2 ^ 32 }
    requires form { HasForm token.now.kind token.now.text.now }
    requires kind { token.now.kind ≡ tokens.Word }
    requires symbol { TokenIs token.now.kind token.now.text.now symbol }
    requires end { symbol.kind ≡ kinds.EndWord }
    ensures said { OnOk result (SaysMore (lexeme_of token.now) at reading.old draft.old reading.new draft.new) }
    ensures fault { IfErr result (Refuses (lexeme_of token.now) at reading.old draft.old) }
{
    if reading.take_end() {
        keep(draft, Role::End, at, symbol, token.text)?;
        return Ok(());
    }
    take_any(alloc, reading, draft, at, token, symbol)
}

/// The word `func`.
#[inline(always)]
fn take_func<'a>(
    alloc: Global,
    reading: &mut Reading,
    draft: &mut TextDraft<'a>,
    at: usize,
    token: &Token<'a>,
    symbol: Symbol,
) -> Result<(), SynFault>
    requires few { at < 2 ^ 32 }
    requires form { HasForm token.now.kind token.now.text.now }
    requires kind { token.now.kind ≡ tokens.Word }
    requires symbol { TokenIs token.now.kind token.now.text.now symbol }
    requires func { symbol.kind ≡ kinds.FuncWord }
    ensures said { OnOk result (SaysMore (lexeme_of token.now) at reading.old draft.old reading.new draft.new) }
    ensures fault { IfErr result (Refuses (lexeme_of token.now) at reading.old draft.old) }
{
    if reading.take_func()? {
        take_kept(alloc, draft, Role::Field, at, symbol, token.text)?;
        return Ok(());
    }
    take_any(alloc, reading, draft, at, token, symbol)
}

/// The word of a part of a type use, or of locals.
#[inline(always)]
fn take_part_word<'a>(
    alloc: Global,
    reading: &mut Reading,
    draft: &mut TextDraft<'a>,
    at: usize,
    token: &Token<'a>,
    symbol: Symbol,
) -> Result<(), SynFault>
    requires few { at < 2 ^ 32 }
    requires form { HasForm token.now.kind token.now.text.now }
    requires kind { token.now.kind ≡ tokens.Word }
    requires symbol { TokenIs token.now.kind token.now.text.now symbol }
    ensures said { OnOk result (SaysMore (lexeme_of token.now) at reading.old draft.old reading.new draft.new) }
    ensures fault { IfErr result (Refuses (lexeme_of token.now) at reading.old draft.old) }
{
    if reading.take_part_word(symbol.kind) {
        return Ok(());
    }
    if reading.take_first_word(symbol.kind) {
        return Ok(());
    }
    take_any(alloc, reading, draft, at, token, symbol)
}

/// A word with no value.
#[inline(always)]
fn take_bare<'a>(
    alloc: Global,
    reading: &mut Reading,
    draft: &mut TextDraft<'a>,
    at: usize,
    token: &Token<'a>,
    symbol: Symbol,
) -> Result<(), SynFault>
    requires few { at < 2 ^ 32 }
    requires form { HasForm token.now.kind token.now.text.now }
    requires kind { token.now.kind ≡ tokens.Word }
    requires symbol { TokenIs token.now.kind token.now.text.now symbol }
    ensures said { OnOk result (SaysMore (lexeme_of token.now) at reading.old draft.old reading.new draft.new) }
    ensures fault { IfErr result (Refuses (lexeme_of token.now) at reading.old draft.old) }
{
    match symbol.kind {
        Kind::EndWord => take_end(alloc, reading, draft, at, token, symbol),
        Kind::FuncWord => take_func(alloc, reading, draft, at, token, symbol),
        Kind::TypeWord | Kind::ParamWord | Kind::ResultWord | Kind::LocalWord => {
            take_part_word(alloc, reading, draft, at, token, symbol)
        }
        _ => take_any(alloc, reading, draft, at, token, symbol),
    }
}

/// A word that is none of the most usual ones.
// It is a call, so that `take_token` stays small enough for the compiler to put that in place. The token is a copy, so
// that the loop over tokens has none in memory.
#[inline(never)]
fn take_rare<'a>(
    alloc: Global,
    reading: &mut Reading,
    draft: &mut TextDraft<'a>,
    at: usize,
    token: Token<'a>,
) -> Result<(), SynFault>
    requires few { at < 2 ^ 32 }
    requires form { HasForm token.kind token.text.now }
    requires kind { token.kind ≡ tokens.Word }
    ensures said { OnOk result (SaysMore (lexeme_of token.entry) at reading.old draft.old reading.new draft.new) }
    ensures fault { IfErr result (Refuses (lexeme_of token.entry) at reading.old draft.old) }
{
    let symbol = symbol_of(&token);
    match symbol.value {
        Value::Number(_) => take_signed(alloc, reading, draft, at, &token, symbol),
        Value::Offset(_) => take_offset(alloc, reading, draft, at, &token, symbol),
        Value::Exponent(_) => take_align(alloc, reading, draft, at, &token, symbol),
        _ => take_bare(alloc, reading, draft, at, &token, symbol),
    }
}

/// The name of a type.
#[inline(always)]
fn take_type<'a>(
    alloc: Global,
    reading: &mut Reading,
    draft: &mut TextDraft<'a>,
    at: usize,
    token: &Token<'a>,
    symbol: Symbol,
) -> Result<(), SynFault>
    requires few { at < 2 ^ 32 }
    requires form { HasForm token.now.kind token.now.text.now }
    requires kind { token.now.kind ≡ tokens.Word }
    requires symbol { TokenIs token.now.kind token.now.text.now symbol }
    requires ty { symbol.kind ≡ kinds.ValType }
    ensures said { OnOk result (SaysMore (lexeme_of token.now) at reading.old draft.old reading.new draft.new) }
    ensures fault { IfErr result (Refuses (lexeme_of token.now) at reading.old draft.old) }
{
    if let Some(role) = reading.take_type() {
        keep(draft, role, at, symbol, token.text)?;
        return Ok(());
    }
    take_any(alloc, reading, draft, at, token, symbol)
}

/// A word that is no name of an instruction and no short number.
#[inline(always)]
fn take_other<'a>(
    alloc: Global,
    reading: &mut Reading,
    draft: &mut TextDraft<'a>,
    at: usize,
    token: &Token<'a>,
) -> Result<(), SynFault>
    requires few { at < 2 ^ 32 }
    requires form { HasForm token.now.kind token.now.text.now }
    requires kind { token.now.kind ≡ tokens.Word }
    ensures said { OnOk result (SaysMore (lexeme_of token.now) at reading.old draft.old reading.new draft.new) }
    ensures fault { IfErr result (Refuses (lexeme_of token.now) at reading.old draft.old) }
{
    if let Some(ty) = usual_type(token.text) {
        let symbol = symbol_of_type(ty);
        return take_type(alloc, reading, draft, at, token, symbol);
    }
    if let Some(kind) = usual_keyword(token.text) {
        let symbol = symbol_of_keyword(kind);
        return take_bare(alloc, reading, draft, at, token, symbol);
    }
    take_rare(alloc, reading, draft, at, *token)
}

/// A word.
#[inline(always)]
pub(crate) fn take_word<'a>(
    alloc: Global,
    reading: &mut Reading,
    draft: &mut TextDraft<'a>,
    at: usize,
    token: &Token<'a>,
) -> Result<(), SynFault>
    requires few { at < 2 ^ 32 }
    requires form { HasForm token.now.kind token.now.text.now }
    requires kind { token.now.kind ≡ tokens.Word }
    ensures said { OnOk result (SaysMore (lexeme_of token.now) at reading.old draft.old reading.new draft.new) }
    ensures fault { IfErr result (Refuses (lexeme_of token.now) at reading.old draft.old) }
{
    if let Some(op) = usual_name(token.text) {
        let symbol = symbol_of_name(op);
        return take_name(alloc, reading, draft, at, token, symbol);
    }
    if let Some(number) = usual_number(token.text) {
        let symbol = symbol_of_number(number);
        return take_number(alloc, reading, draft, at, token, symbol);
    }
    take_other(alloc, reading, draft, at, token)
}
