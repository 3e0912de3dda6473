//! Texts token by token.
//!
//! Each function takes one more token, the one of this number. The error is the first fault, or want of memory. What
//! most texts are made of, the tokens of instructions in which none is nested, is read first, without a look at the
//! whole table of the grammar.

ghost use Rattle.std.specs.Prelude.{◌≡◌, ◌≢◌, ◌<◌, ◌^◌, ◌++◌, ◌∷◌, [], ℕ, List, length};
ghost use Rattle.std.specs.Prelude.{IfOk, IfErr, OnOk, OnErr, true};
ghost use Rattle.wc_tokens.specs.Standard.Lexemes.{HasForm};
ghost use Rattle.wc_tokens.specs.Standard.Tokens.{lexeme_of};
ghost use Rattle.wc_tokens.specs.declared.token.TokenKind.TheVariants as tokens;
ghost use Rattle.wc_syntax.specs.Standard.Deriving.{Event};
ghost use Rattle.wc_syntax.specs.Standard.Parsing.{IsRefusal};
ghost use Rattle.wc_syntax.specs.Standard.Reading.{IsRead, kept_as};
ghost use Rattle.wc_syntax.specs.declared.kind.Kind.{Kind as GrammarKind};
ghost use Rattle.wc_syntax.specs.declared.kind.Kind.TheVariants.{OtherWord};
ghost use Rattle.wc_symbols.specs.Standard.Symbols.{bare};
ghost use Rattle.wc_symbols.specs.Standard.Tokens.{TokenIs};
ghost use Rattle.wc_parse_code.specs.Standard.Tokens.{kept_token};
ghost use Rattle.wc_parse_field.specs.Drafting.Fields.{started};
ghost use Rattle.wc_parse.specs.Kept.Texts.{with_word, take_by};
ghost use Rattle.wc_parse.specs.Kept.SaidSoFar.{SaysMore, Refuses};

use crate::fault::SynFault;
use crate::text_draft::TextDraft;
use crate::words::take_word;
use std::alloc::{AllocError, Global};
use wc_parse_code::Word;
use wc_symbols::{StringValue, Symbol, Value, string_value, symbol_of_string};
use wc_syntax::{Kind, Reading, Refusal, Role};
use wc_tokens::{Token, TokenKind};

/// What a token is whose kind says all.
#[inline(always)]
fn bare(kind: Kind) -> Symbol
    ensures { result ≡ bare kind }
{
    Symbol {
        kind,
        value: Value::Nothing,
    }
}

/// As what a token of this kind is kept, by the whole table of the grammar.
#[inline(never)]
fn role_by_table(reading: &mut Reading, at: usize, kind: Kind) -> Result<Option<Role>, Refusal>
    ensures kept { (limit : ℕ) (ks : List GrammarKind) (es : List Event) → IsRead limit ks es reading.old
        → at ≡ length ks
        → IfOk result (λ role. IsRead limit (ks ++ kind ∷ []) (es ++ kept_as role at kind) reading.new) }
    ensures refused { (limit : ℕ) (ks : List GrammarKind) (es : List Event) → IsRead limit ks es reading.old
        → at ≡ length ks
        → IfErr result (λ refusal. (more : List GrammarKind) → IsRefusal limit (ks ++ kind ∷ more) refusal) }
    ensures err { OnErr result (reading.new ≡ reading.old) }
{
    reading.take(at, kind)
}

/// As what a token of this kind is kept. The error is the first fault, or want of memory; then the reader stands where
/// it stood.
// It is apart from what is done with a token that is kept, since most of those that come here aren't.
#[inline(never)]
fn role_of(reading: &mut Reading, at: usize, kind: Kind) -> Result<Option<Role>, Refusal>
    ensures kept { (limit : ℕ) (ks : List GrammarKind) (es : List Event) → IsRead limit ks es reading.old
        → at ≡ length ks
        → IfOk result (λ role. IsRead limit (ks ++ kind ∷ []) (es ++ kept_as role at kind) reading.new) }
    ensures refused { (limit : ℕ) (ks : List GrammarKind) (es : List Event) → IsRead limit ks es reading.old
        → at ≡ length ks
        → IfErr result (λ refusal. (more : List GrammarKind) → IsRefusal limit (ks ++ kind ∷ more) refusal) }
    ensures err { OnErr result (reading.new ≡ reading.old) }
{
    if let Some(role) = reading.take_part(kind) {
        return Ok(role);
    }
    role_by_table(reading, at, kind)
}

/// Keeps any token but a string. The error is want of memory.
#[inline(never)]
pub(crate) fn take_kept<'a>(
    alloc: Global,
    draft: &mut TextDraft<'a>,
    role: Role,
    at: usize,
    symbol: Symbol,
    text: &'a str,
) -> Result<(), AllocError>
    requires { at < 2 ^ 32 }
    ensures { OnOk result (draft.new ≡ take_by role (kept_token at symbol text.now) [] draft.old) }
{
    let word = Word {
        token: at as u32,
        symbol,
        text,
    };
    draft.take(alloc, role, &word, StringValue::Plain(""))
}

/// Any token but a string.
#[inline(always)]
pub(crate) fn take_any<'a>(
    alloc: Global,
    reading: &mut Reading,
    draft: &mut TextDraft<'a>,
    at: usize,
    token: &Token<'a>,
    symbol: Symbol,
) -> Result<(), SynFault>
    requires few { at < 2 ^ 32 }
    requires form { HasForm token.now.kind token.now.text.now }
    requires no_string { token.now.kind ≢ tokens.Str }
    requires symbol { TokenIs token.now.kind token.now.text.now symbol }
    ensures said { OnOk result (SaysMore (lexeme_of token.now) at reading.old draft.old reading.new draft.new) }
    ensures fault { IfErr result (Refuses (lexeme_of token.now) at reading.old draft.old) }
{
    let Some(role) = role_of(reading, at, symbol.kind)? else {
        return Ok(());
    };
    take_kept(alloc, draft, role, at, symbol, token.text)?;
    Ok(())
}

/// Keeps a token of an instruction. The error is want of memory.
#[inline(always)]
pub(crate) fn keep<'a>(
    draft: &mut TextDraft<'a>,
    role: Role,
    at: usize,
    symbol: Symbol,
    text: &'a str,
) -> Result<(), AllocError>
    requires { at < 2 ^ 32 }
    ensures { OnOk result (draft.new ≡ with_word role (kept_token at symbol text.now) draft.old) }
{
    let word = Word {
        token: at as u32,
        symbol,
        text,
    };
    draft.take_word(role, &word)
}

/// An opening parenthesis.
#[inline(always)]
fn take_open<'a>(
    alloc: Global,
    reading: &mut Reading,
    draft: &mut TextDraft<'a>,
    at: usize,
    token: &Token<'a>,
) -> Result<(), SynFault>
    requires few { at < 2 ^ 32 }
    requires form { HasForm token.now.kind token.now.text.now }
    requires kind { token.now.kind ≡ tokens.Open }
    ensures said { OnOk result (SaysMore (lexeme_of token.now) at reading.old draft.old reading.new draft.new) }
    ensures fault { IfErr result (Refuses (lexeme_of token.now) at reading.old draft.old) }
{
    let symbol = bare(Kind::Open);
    if reading.take_open() {
        return Ok(());
    }
    take_any(alloc, reading, draft, at, token, symbol)
}

/// A closing parenthesis that ends a part of a field, or a field; and whether it is known to end a field.
#[inline(always)]
fn take_end_of_part<'a>(
    alloc: Global,
    reading: &mut Reading,
    draft: &mut TextDraft<'a>,
    at: usize,
    token: &Token<'a>,
    symbol: Symbol,
) -> Result<bool, SynFault>
    requires few { at < 2 ^ 32 }
    requires form { HasForm token.now.kind token.now.text.now }
    requires kind { token.now.kind ≡ tokens.Close }
    requires symbol { TokenIs token.now.kind token.now.text.now symbol }
    ensures said { OnOk result (SaysMore (lexeme_of token.now) at reading.old draft.old reading.new draft.new) }
    ensures ended { IfOk result (λ ended. ended ≡ true → draft.new.field ≡ started OtherWord 0) }
    ensures fault { IfErr result (Refuses (lexeme_of token.now) at reading.old draft.old) }
{
    if reading.take_part_end() {
        return Ok(false);
    }
    if reading.take_field_end() {
        take_kept(alloc, draft, Role::FieldEnd, at, symbol, token.text)?;
        return Ok(true);
    }
    take_any(alloc, reading, draft, at, token, symbol)?;
    Ok(false)
}

/// A closing parenthesis, and whether it is known to end a field.
#[inline(always)]
fn take_close<'a>(
    alloc: Global,
    reading: &mut Reading,
    draft: &mut TextDraft<'a>,
    at: usize,
    token: &Token<'a>,
) -> Result<bool, SynFault>
    requires few { at < 2 ^ 32 }
    requires form { HasForm token.now.kind token.now.text.now }
    requires kind { token.now.kind ≡ tokens.Close }
    ensures said { OnOk result (SaysMore (lexeme_of token.now) at reading.old draft.old reading.new draft.new) }
    ensures ended { IfOk result (λ ended. ended ≡ true → draft.new.field ≡ started OtherWord 0) }
    ensures fault { IfErr result (Refuses (lexeme_of token.now) at reading.old draft.old) }
{
    let symbol = bare(Kind::Close);
    if reading.take_held_end() {
        keep(draft, Role::HeldEnd, at, symbol, token.text)?;
        return Ok(false);
    }
    take_end_of_part(alloc, reading, draft, at, token, symbol)
}

/// A string: whether it is a name is seen from what it stands for.
// Strings are few, so they stay out of the loop over tokens. The token is a copy, so that the loop has none in memory.
#[inline(never)]
fn take_any_string<'a>(
    alloc: Global,
    reading: &mut Reading,
    draft: &mut TextDraft<'a>,
    at: usize,
    token: Token<'a>,
) -> Result<(), SynFault>
    requires few { at < 2 ^ 32 }
    requires form { HasForm token.kind token.text.now }
    requires kind { token.kind ≡ tokens.Str }
    ensures said { OnOk result (SaysMore (lexeme_of token.entry) at reading.old draft.old reading.new draft.new) }
    ensures fault { IfErr result (Refuses (lexeme_of token.entry) at reading.old draft.old) }
{
    let value = string_value(alloc, &token)?;
    let string = symbol_of_string(&value);
    let Some(role) = role_of(reading, at, string.kind)? else {
        return Ok(());
    };
    let word = Word {
        token: at as u32,
        symbol: string,
        text: token.text,
    };
    draft.take(alloc, role, &word, value)?;
    Ok(())
}

/// A string.
// The call stands in a function of its own, so that no other token pays for the place of its result.
#[inline(always)]
fn take_string<'a>(
    alloc: Global,
    reading: &mut Reading,
    draft: &mut TextDraft<'a>,
    at: usize,
    token: &Token<'a>,
) -> Result<(), SynFault>
    requires few { at < 2 ^ 32 }
    requires form { HasForm token.now.kind token.now.text.now }
    requires kind { token.now.kind ≡ tokens.Str }
    ensures said { OnOk result (SaysMore (lexeme_of token.now) at reading.old draft.old reading.new draft.new) }
    ensures fault { IfErr result (Refuses (lexeme_of token.now) at reading.old draft.old) }
{
    take_any_string(alloc, reading, draft, at, *token)
}

/// An identifier.
#[inline(always)]
fn take_id<'a>(
    alloc: Global,
    reading: &mut Reading,
    draft: &mut TextDraft<'a>,
    at: usize,
    token: &Token<'a>,
) -> Result<(), SynFault>
    requires few { at < 2 ^ 32 }
    requires form { HasForm token.now.kind token.now.text.now }
    requires kind { token.now.kind ≡ tokens.Id }
    ensures said { OnOk result (SaysMore (lexeme_of token.now) at reading.old draft.old reading.new draft.new) }
    ensures fault { IfErr result (Refuses (lexeme_of token.now) at reading.old draft.old) }
{
    let symbol = bare(Kind::Id);
    if reading.take_index(Kind::Id) {
        keep(draft, Role::Index, at, symbol, token.text)?;
        return Ok(());
    }
    take_any(alloc, reading, draft, at, token, symbol)
}

/// A token, and whether it is known to end a field. Then the draft is that of no field.
#[inline(always)]
pub(crate) fn take_token<'a>(
    alloc: Global,
    reading: &mut Reading,
    draft: &mut TextDraft<'a>,
    at: usize,
    token: &Token<'a>,
) -> Result<bool, SynFault>
    requires few { at < 2 ^ 32 }
    requires form { HasForm token.now.kind token.now.text.now }
    ensures said { OnOk result (SaysMore (lexeme_of token.now) at reading.old draft.old reading.new draft.new) }
    ensures ended { IfOk result (λ ended. ended ≡ true → draft.new.field ≡ started OtherWord 0) }
    ensures fault { IfErr result (Refuses (lexeme_of token.now) at reading.old draft.old) }
{
    match token.kind {
        TokenKind::Open => take_open(alloc, reading, draft, at, token)?,
        TokenKind::Close => return take_close(alloc, reading, draft, at, token),
        TokenKind::Id => take_id(alloc, reading, draft, at, token)?,
        TokenKind::Word => take_word(alloc, reading, draft, at, token)?,
        TokenKind::Str => take_string(alloc, reading, draft, at, token)?,
    }
    Ok(false)
}
