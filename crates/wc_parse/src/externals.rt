//! Imports of functions, and exports, read whole: none of their tokens is looked for in the table of the grammar.
//!
//! Each function looks ahead. Where something else comes, also a fault, it answers that nothing was found, and the
//! field is read token by token.

ghost use Rattle.std.specs.Prelude.{◌≡◌, ◌+◌, ◌<◌, ◌≤◌, ◌^◌, true, None, IfOk, IfSome, OnSome, IsUtf8};
ghost use Rattle.wc_tokens.specs.Standard.Lexemes.{HasForm};
ghost use Rattle.wc_tokens.specs.Standard.Strings.{IsString};
ghost use Rattle.wc_tokens.specs.declared.token.TokenKind.TheVariants as tokens;
ghost use Rattle.wc_syntax.specs.declared.kind.Kind.TheVariants as kinds;
ghost use Rattle.wc_symbols.specs.Standard.Strings.{bytes_in};
ghost use Rattle.wc_symbols.specs.Standard.Symbols.{bare};
ghost use Rattle.wc_symbols.specs.Standard.Tokens.{TokenIs, StringIs};
ghost use Rattle.wc_parse.specs.Kept.Passing.{seen, IsSeen, IsBare, Begins, IsNamed, IsIndex, IsIndexed, is_lendable};
ghost use Rattle.wc_parse.specs.Kept.Passing.{IsLent, IsAsked, IsTyped, SaysWhole};

use std::alloc::{AllocError, Global};
use wc_parse_code::Word;
use wc_parse_field::{export_of, func_import_of};
use wc_surface::{Field, Id};
use wc_symbols::{
    StringValue, Symbol, Value, string_value, symbol_of_number, symbol_of_string, usual_keyword,
    usual_number,
};
use wc_syntax::Kind;
use wc_tokens::{Lexer, Token, TokenKind};

/// A field that was read whole, and how many tokens it has.
#[derive(Drop)]
pub(crate) struct Whole<'a> {
    pub(crate) field: Field<'a>,
    pub(crate) count: usize,
}

/// An opening parenthesis comes.
#[inline(never)]
fn opens(ahead: &mut Lexer<'_>) -> Option<()>
    ensures { OnSome result (IsBare ahead.old kinds.Open ahead.new) }
{
    match ahead.next() {
        Ok(Some(token)) if token.kind == TokenKind::Open => Some(()),
        _ => None,
    }
}

/// A closing parenthesis comes, behind gaps of any kind.
#[inline(never)]
fn closes_behind_gaps(ahead: &mut Lexer<'_>) -> Option<()>
    ensures { OnSome result (IsBare ahead.old kinds.Close ahead.new) }
{
    match ahead.next() {
        Ok(Some(token)) if token.kind == TokenKind::Close => Some(()),
        _ => None,
    }
}

/// A closing parenthesis comes, and only blanks stand before it. Else nothing is passed.
#[inline(always)]
fn closes_at_once(ahead: &mut Lexer<'_>) -> Option<()>
    ensures found { OnSome result (IsBare ahead.old kinds.Close ahead.new) }
    ensures none { result ≡ None → ahead.new ≡ ahead.old }
{
    ahead.next_closed()
}

/// A closing parenthesis comes.
#[inline(always)]
fn closes(ahead: &mut Lexer<'_>) -> Option<()>
    ensures { OnSome result (IsBare ahead.old kinds.Close ahead.new) }
{
    // Mostly nothing but blanks stands before it.
    match closes_at_once(ahead) {
        Some(()) => Some(()),
        None => closes_behind_gaps(ahead),
    }
}

/// The keyword that comes.
#[inline(never)]
fn keyword(ahead: &mut Lexer<'_>) -> Option<Kind>
    ensures { IfSome result (λ kind. IsBare ahead.old kind ahead.new) }
{
    match ahead.next() {
        Ok(Some(token)) if token.kind == TokenKind::Word => usual_keyword(token.text),
        _ => None,
    }
}

/// This keyword comes.
#[inline(always)]
fn word(ahead: &mut Lexer<'_>, kind: Kind) -> Option<()>
    ensures { OnSome result (IsBare ahead.old kind ahead.new) }
{
    let found = keyword(ahead)?;
    if found == kind { Some(()) } else { None }
}

/// An opening parenthesis and this keyword right behind it come, and only blanks, or one block comment, stand before
/// them. Else nothing is passed.
#[inline(always)]
fn begins_at_once(ahead: &mut Lexer<'_>, word: &str, kind: Kind) -> Option<()>
    ensures found { OnSome result (Begins ahead.old kind ahead.new) }
    ensures none { result ≡ None → ahead.new ≡ ahead.old }
{
    // Of a constant the compiler knows this.
    let found = usual_keyword(word)?;
    if found == kind {
        ahead.next_opened(word)
    } else {
        None
    }
}

/// An opening parenthesis and a keyword come, of this kind, which is that of this word.
#[inline(always)]
fn begins(ahead: &mut Lexer<'_>, spelled: &str, kind: Kind) -> Option<()>
    ensures { OnSome result (Begins ahead.old kind ahead.new) }
{
    // Mostly nothing more stands before them.
    match begins_at_once(ahead, spelled, kind) {
        Some(()) => Some(()),
        None => {
            opens(ahead)?;
            word(ahead, kind)
        }
    }
}

/// What a string stands for that is a name. The error is want of memory.
#[inline(always)]
fn name_value<'a>(alloc: Global, token: &Token<'a>) -> Result<Option<StringValue<'a>>, AllocError>
    requires form { HasForm token.now.kind token.now.text.now }
    requires kind { token.now.kind ≡ tokens.Str }
    ensures string { IfOk result (λ found. IfSome found (λ value. IsString token.now.text.now (bytes_in value))) }
    ensures name { IfOk result (λ found. IfSome found (λ _. StringIs token.now.text.now (bare kinds.Name))) }
{
    let value = string_value(alloc, token)?;
    let symbol = symbol_of_string(&value);
    match symbol.kind {
        Kind::Name => Ok(Some(value)),
        _ => Ok(None),
    }
}

/// The name that comes, in which something is escaped. The error is want of memory.
#[inline(never)]
fn escaped_name<'a>(
    alloc: Global,
    ahead: &mut Lexer<'a>,
) -> Result<Option<StringValue<'a>>, AllocError>
    ensures { IfOk result (λ found. IfSome found (λ value. IsNamed ahead.old (bytes_in value) ahead.new)) }
{
    let Ok(Some(token)) = ahead.next() else {
        return Ok(None);
    };
    match token.kind {
        TokenKind::Str => name_value(alloc, &token),
        _ => Ok(None),
    }
}

/// A piece of the text, as what a string stands for.
#[inline(always)]
fn plain_value(part: &str) -> StringValue<'_>
    ensures bytes { bytes_in result ≡ part.now }
    ensures utf8 { IsUtf8 part.now }
{
    // A `str` is known to be UTF-8.
    let _ = part.as_bytes();
    StringValue::Plain(part)
}

/// The name that comes. The error is want of memory.
#[inline(never)]
fn name<'a>(alloc: Global, ahead: &mut Lexer<'a>) -> Result<Option<StringValue<'a>>, AllocError>
    ensures { IfOk result (λ found. IfSome found (λ value. IsNamed ahead.old (bytes_in value) ahead.new)) }
{
    match ahead.next_plain() {
        Some(part) => Ok(Some(plain_value(part))),
        None => escaped_name(alloc, ahead),
    }
}

/// What a number or an identifier is to the grammar.
#[inline(always)]
fn index_symbol(token: &Token<'_>) -> Option<Symbol>
    requires { HasForm token.now.kind token.now.text.now }
    ensures symbol { IfSome result (λ symbol. TokenIs token.now.kind token.now.text.now symbol) }
    ensures index { IfSome result (λ symbol. IsIndex token.now.kind symbol.kind) }
{
    match token.kind {
        TokenKind::Word => Some(symbol_of_number(usual_number(token.text)?)),
        TokenKind::Id => Some(Symbol {
            kind: Kind::Id,
            value: Value::Nothing,
        }),
        _ => None,
    }
}

/// The number or the identifier that comes, at this number among all tokens.
#[inline(never)]
fn index<'a>(ahead: &mut Lexer<'a>, at: u32) -> Option<Word<'a>>
    ensures token { IfSome result (λ word. word.token ≡ at) }
    ensures seen { IfSome result (λ word. IsIndexed ahead.old word ahead.new) }
{
    let Ok(Some(token)) = ahead.next() else {
        return None;
    };
    let symbol = index_symbol(&token)?;
    Some(Word {
        token: at,
        symbol,
        text: token.text,
    })
}

/// Whether an export may lend what this word says.
#[inline(always)]
fn is_lendable(kind: Kind) -> bool
    ensures { result ≡ is_lendable kind }
{
    matches!(
        kind,
        Kind::FuncWord | Kind::TableWord | Kind::MemoryWord | Kind::GlobalWord
    )
}

/// The word that comes of what an export may lend.
#[inline(always)]
fn lendable(ahead: &mut Lexer<'_>) -> Option<Kind>
    ensures bare { IfSome result (λ kind. IsBare ahead.old kind ahead.new) }
    ensures lendable { IfSome result (λ kind. is_lendable kind ≡ true) }
{
    let kind = keyword(ahead)?;
    if is_lendable(kind) {
        return Some(kind);
    }
    None
}

/// An opening parenthesis and the word of what an export may lend come.
#[inline(always)]
fn begins_loan(ahead: &mut Lexer<'_>) -> Option<Kind>
    ensures begins { IfSome result (λ kind. Begins ahead.old kind ahead.new) }
    ensures lendable { IfSome result (λ kind. is_lendable kind ≡ true) }
{
    // Mostly functions are lent.
    match begins_at_once(ahead, "func", Kind::FuncWord) {
        Some(()) => Some(Kind::FuncWord),
        None => {
            opens(ahead)?;
            lendable(ahead)
        }
    }
}

/// What an export lends: the word of it, and its index.
#[derive(Drop)]
struct Loan<'a> {
    kind: Kind,
    target: Word<'a>,
}

/// What an export lends, with the parentheses around it and behind it, from the token of this number on.
#[inline(always)]
fn lent<'a>(ahead: &mut Lexer<'a>, at: u32) -> Option<Loan<'a>>
    requires { at + 16 ≤ 2 ^ 32 }
    ensures { IfSome result (λ lent. IsLent ahead.old at lent.kind lent.target ahead.new) }
{
    let kind = begins_loan(ahead)?;
    let target = index(ahead, at + 2)?;
    closes(ahead)?;
    closes(ahead)?;
    Some(Loan { kind, target })
}

/// The identifier at this number among all tokens, where one comes. Else nothing is passed.
#[inline(always)]
fn identifier<'a>(ahead: &mut Lexer<'a>, at: u32) -> Option<Id<'a>>
    ensures found { IfSome result (λ id. (id.token ≡ at) × IsSeen ahead.old (seen (bare kinds.Id) id.text) ahead.new) }
    ensures none { result ≡ None → ahead.new ≡ ahead.old }
{
    let mut behind = ahead.ahead();
    match behind.next() {
        Ok(Some(token)) if token.kind == TokenKind::Id => {
            *ahead = behind;
            Some(Id::new(at, token.text))
        }
        _ => None,
    }
}

/// The type of a function that is imported, from the token of this number on, with the parentheses behind it.
#[inline(always)]
fn typed<'a>(ahead: &mut Lexer<'a>, at: u32) -> Option<Word<'a>>
    requires { at + 16 ≤ 2 ^ 32 }
    ensures { IfSome result (λ ty. IsTyped ahead.old at ty ahead.new) }
{
    begins(ahead, "type", Kind::TypeWord)?;
    let ty = index(ahead, at + 2)?;
    closes(ahead)?;
    closes(ahead)?;
    closes(ahead)?;
    Some(ty)
}

/// The export that comes, from the token of this number on. The error is want of memory.
#[inline(never)]
pub(crate) fn whole_export<'a>(
    alloc: Global,
    ahead: &mut Lexer<'a>,
    at: u32,
) -> Result<Option<Whole<'a>>, AllocError>
    requires { at + 32 ≤ 2 ^ 32 }
    ensures says { IfOk result (λ found. IfSome found (λ w. SaysWhole ahead.old at w.field w.count ahead.new)) }
    ensures count { IfOk result (λ found. IfSome found (λ w. (0 < w.count) × (w.count ≤ 16))) }
{
    let Some(()) = begins(ahead, "export", Kind::ExportWord) else {
        return Ok(None);
    };
    let Some(name) = name(alloc, ahead)? else {
        return Ok(None);
    };
    let Some(lent) = lent(ahead, at + 3) else {
        return Ok(None);
    };
    let field = export_of(name, lent.kind, &lent.target);
    Ok(Some(Whole { field, count: 8 }))
}

/// What an import asks for: its module and its name in that.
#[derive(Drop)]
struct Request<'a> {
    module: StringValue<'a>,
    item: StringValue<'a>,
}

/// An import of a function that comes, up to the word `func`: what it asks for. The error is want of memory.
#[inline(always)]
fn asked<'a>(alloc: Global, ahead: &mut Lexer<'a>) -> Result<Option<Request<'a>>, AllocError>
    ensures { IfOk result (λ found. IfSome found (λ asked.
        IsAsked ahead.old (bytes_in asked.«module») (bytes_in asked.item) ahead.new)) }
{
    let Some(()) = begins(ahead, "import", Kind::ImportWord) else {
        return Ok(None);
    };
    let Some(module) = name(alloc, ahead)? else {
        return Ok(None);
    };
    let Some(item) = name(alloc, ahead)? else {
        return Ok(None);
    };
    let Some(()) = begins(ahead, "func", Kind::FuncWord) else {
        return Ok(None);
    };
    Ok(Some(Request { module, item }))
}

/// The import of a function that comes, from the token of this number on, where it names its type. The error is want of
/// memory.
#[inline(never)]
pub(crate) fn whole_import<'a>(
    alloc: Global,
    ahead: &mut Lexer<'a>,
    at: u32,
) -> Result<Option<Whole<'a>>, AllocError>
    requires { at + 32 ≤ 2 ^ 32 }
    ensures says { IfOk result (λ found. IfSome found (λ w. SaysWhole ahead.old at w.field w.count ahead.new)) }
    ensures count { IfOk result (λ found. IfSome found (λ w. (0 < w.count) × (w.count ≤ 16))) }
{
    let Some(Request { module, item }) = asked(alloc, ahead)? else {
        return Ok(None);
    };
    let Some(id) = identifier(ahead, at + 6) else {
        let Some(ty) = typed(ahead, at + 6) else {
            return Ok(None);
        };
        let field = func_import_of(alloc, at + 1, module, item, None, &ty)?;
        return Ok(Some(Whole { field, count: 12 }));
    };
    let Some(ty) = typed(ahead, at + 7) else {
        return Ok(None);
    };
    let field = func_import_of(alloc, at + 1, module, item, Some(id), &ty)?;
    Ok(Some(Whole { field, count: 13 }))
}
