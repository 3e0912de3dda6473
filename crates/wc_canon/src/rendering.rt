//! The texts of refusals.

ghost use Rattle.std.specs.Prelude.{◌≡◌, ◌++◌, IfOk, Some, codes, string_bytes};
ghost use Rattle.wc_canon.specs.Standard.Text.{reason_text, character_text, grammar_text, name_text, rule_text};
ghost use Rattle.wc_canon.specs.Standard.Text.{numbered, at_token, at_instruction, broken_text, refusal_text};
ghost use Rattle.wc_canon.specs.Standard.Text.{piece_text, pieces_text};

use crate::fault::Refusal;
use std::alloc::{AllocError, Global};
use std::fmt;
use wc_binary::BinWhy;
use wc_check::{CheckWhy, Item};
use wc_resolve_code::NameWhy;
use wc_syntax::SynWhy;
use wc_tokens::LexWhy;

fn reason(why: BinWhy) -> &'static str
    ensures { result.now ≡ reason_text why }
{
    match why {
        BinWhy::End => "unexpected end",
        BinWhy::Magic => "bad magic",
        BinWhy::Version => "unsupported version",
        BinWhy::SectionId => "unknown section id",
        BinWhy::SectionOrder => "section out of order",
        BinWhy::SectionSize => "section size differs from its content",
        BinWhy::Integer => "integer out of range",
        BinWhy::NotUtf8 => "name is not UTF-8",
        BinWhy::WrongType => "unknown type",
        BinWhy::Float => "float is not supported",
        BinWhy::Tag => "unknown tag",
        BinWhy::Opcode => "unknown opcode",
        BinWhy::ZeroByte => "zero byte expected",
        BinWhy::Depth => "nesting too deep",
        BinWhy::Locals => "too many locals",
        BinWhy::BodySize => "body size differs from its content",
        BinWhy::Counts => "function and code counts differ",
    }
}

fn character(why: LexWhy) -> &'static str
    ensures { result.now ≡ character_text why }
{
    match why {
        LexWhy::NotUtf8 => "text is not UTF-8",
        LexWhy::Character => "unexpected character",
        LexWhy::CommentOpen => "comment is not closed",
        LexWhy::StringOpen => "string is not closed",
        LexWhy::Escape => "bad escape or character in string",
        LexWhy::TooLong => "text too long",
    }
}

fn grammar(why: SynWhy) -> &'static str
    ensures { result.now ≡ grammar_text why }
{
    match why {
        SynWhy::Unexpected => "unexpected token",
        SynWhy::End => "unexpected end",
        SynWhy::Range => "integer out of range",
        SynWhy::Align => "alignment is not a power of two",
        SynWhy::Float => "float is not supported",
        SynWhy::NoInstruction => "unknown instruction",
        SynWhy::Depth => "nesting too deep",
        SynWhy::NameNotUtf8 => "name is not UTF-8",
    }
}

fn name(why: NameWhy) -> &'static str
    ensures { result.now ≡ name_text why }
{
    match why {
        NameWhy::UnknownId => "unknown identifier",
        NameWhy::DuplicateId => "duplicate identifier",
        NameWhy::LateImport => "import after a definition",
        NameWhy::TypeDiffers => "type differs from its use",
        NameWhy::SecondStart => "second start",
        NameWhy::LabelDiffers => "label differs",
        NameWhy::NoSuchType => "no such type",
        NameWhy::NamedParam => "parameter name in call_indirect",
        NameWhy::TooManyLocals => "too many locals",
        NameWhy::BlockParam => "parameter name in a block type",
    }
}

fn rule(why: CheckWhy) -> &'static str
    ensures { result.now ≡ rule_text why }
{
    match why {
        CheckWhy::TypeIndex => "type index out of range",
        CheckWhy::Limits => "limits out of range",
        CheckWhy::Several => "second table or memory",
        CheckWhy::Constant => "not a constant of the right type",
        CheckWhy::Index => "index out of range",
        CheckWhy::Immutable => "global is not mutable",
        CheckWhy::Label => "label out of range",
        CheckWhy::Align => "alignment above natural",
        CheckWhy::ExportName => "duplicate export name",
        CheckWhy::StartType => "start function has parameters or results",
    }
}

/// A piece of a text.
#[derive(Clone, Copy)]
pub enum Piece<'a> {
    /// These words.
    Words(&'a str),
    /// This number, in decimal digits.
    Number(u64),
}

impl fmt::Display for Piece<'_> {
    ghost output = { λ piece. Some (piece_text piece) };

    fn fmt<W: fmt::Write>(&self, f: &mut fmt::Formatter<W>) -> fmt::Result {
        match self {
            Piece::Words(words) => f.write_str(*words),
            Piece::Number(n) => write!(f, "{n}"),
        }
    }
}

/// A piece without a character, where a text has fewer than there is room for.
const NOTHING: Piece<'static> = Piece::Words("");

/// Words alone.
fn words(text: &'static str) -> [Piece<'static>; 6]
    ensures { pieces_text result ≡ text.now }
{
    [
        NOTHING,
        NOTHING,
        NOTHING,
        NOTHING,
        NOTHING,
        Piece::Words(text),
    ]
}

/// Words with a number, and a text behind them.
fn numbered(word: &'static str, n: u64, text: &'static str) -> [Piece<'static>; 6]
    ensures { pieces_text result ≡ numbered word.now n text.now }
{
    [
        NOTHING,
        NOTHING,
        Piece::Words(word),
        Piece::Number(n),
        Piece::Words(": "),
        Piece::Words(text),
    ]
}

/// A token by its number and its byte, and a text behind them.
fn at_token(token: u64, at: u64, text: &'static str) -> [Piece<'static>; 6]
    ensures { pieces_text result ≡ at_token token at text.now }
{
    [
        Piece::Words("token "),
        Piece::Number(token),
        Piece::Words(" at byte "),
        Piece::Number(at),
        Piece::Words(": "),
        Piece::Words(text),
    ]
}

/// An instruction by its function and its number, and a text behind them.
fn at_instruction(func: u64, number: u64, text: &'static str) -> [Piece<'static>; 6]
    ensures { pieces_text result ≡ at_instruction func number text.now }
{
    [
        Piece::Words("func "),
        Piece::Number(func),
        Piece::Words(" instruction "),
        Piece::Number(number),
        Piece::Words(": "),
        Piece::Words(text),
    ]
}

/// The start function, and a text behind it.
fn at_start(text: &'static str) -> [Piece<'static>; 6]
    ensures { pieces_text result ≡ codes "start: " ++ text.now }
{
    [
        NOTHING,
        NOTHING,
        NOTHING,
        NOTHING,
        Piece::Words("start: "),
        Piece::Words(text),
    ]
}

/// An item, and the rule that it breaks.
fn broken(item: Item, rule: &'static str) -> [Piece<'static>; 6]
    ensures { pieces_text result ≡ broken_text item rule.now }
{
    match item {
        Item::Import(n) => numbered("import ", n as u64, rule),
        Item::Func(n) => numbered("func ", n as u64, rule),
        Item::Instr { func, number } => at_instruction(func as u64, number as u64, rule),
        Item::Table(n) => numbered("table ", n as u64, rule),
        Item::Memory(n) => numbered("memory ", n as u64, rule),
        Item::Global(n) => numbered("global ", n as u64, rule),
        Item::Export(n) => numbered("export ", n as u64, rule),
        Item::Start => at_start(rule),
        Item::Elem(n) => numbered("elem ", n as u64, rule),
        Item::Data(n) => numbered("data ", n as u64, rule),
    }
}

/// The text that [`render`] gives, in pieces behind one another, of which some may be empty. It takes no memory and
/// can't fail, so a caller gets the whole text into any writer.
pub fn pieces(refusal: &Refusal) -> [Piece<'static>; 6]
    ensures { pieces_text result ≡ refusal_text refusal.now }
{
    match refusal {
        Refusal::Binary { at, why } => numbered("byte ", *at, reason(*why)),
        Refusal::Lex { at, why } => numbered("byte ", *at, character(*why)),
        Refusal::Syntax { token, at, why } => at_token(*token, *at, grammar(*why)),
        Refusal::Names { token, at, why } => at_token(*token, *at, name(*why)),
        Refusal::Check { item, why } => broken(*item, rule(*why)),
        Refusal::Oversize => words("module too large"),
        Refusal::Memory => words("out of memory"),
    }
}

/// Writes the text that [`render`] gives. It takes no memory, and fails only where its writer does.
impl fmt::Display for Refusal {
    ghost output = { λ refusal. Some (refusal_text refusal) };

    fn fmt<W: fmt::Write>(&self, f: &mut fmt::Formatter<W>) -> fmt::Result {
        for piece in &pieces(self) {
            write!(f, "{piece}")?;
        }
        Ok(())
    }
}

/// The text of a refusal, without a line end. Numbers are in decimal digits. `byte AT: TEXT` where the bytes of a
/// binary or the characters of a text are wrong; `token N at byte AT: TEXT` where the grammar or the names of a text
/// are; `ITEM: TEXT` where a rule is broken, as in `func 0 instruction 1: label out of range`. A refusal is displayed
/// so too, which wants no memory.
///
/// # Errors
/// A growth of memory was refused.
pub fn render(alloc: Global, refusal: &Refusal) -> Result<String, AllocError>
    ensures { IfOk result (λ text. string_bytes text ≡ refusal_text refusal.now) }
{
    refusal.to_string(alloc)
}
