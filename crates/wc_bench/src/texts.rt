//! What is timed of a text.

use crate::made::{Made, made_since};
use anyhow::{Result, bail};
use std::alloc::Global;
use std::time::Instant;
use wc_ast::Module;
use wc_parse::parse;
use wc_resolve::resolve;
use wc_surface::{Field, FuncSeen, Surface};
use wc_tokens::{Tokens, lex};

/// The tokens of the text.
fn tokens_of(alloc: Global, text: &[u8]) -> Result<Tokens<'_>> {
    match lex(alloc, text) {
        Ok(tokens) => Ok(tokens),
        Err(_) => bail!("the text has a fault"),
    }
}

/// What these tokens say.
fn surface_of<'a>(alloc: Global, tokens: &Tokens<'a>) -> Result<Surface<'a>> {
    match parse(alloc, tokens) {
        Ok(surface) => Ok(surface),
        Err(_) => bail!("the grammar refuses the text"),
    }
}

/// The module of what a text says.
fn module_of(alloc: Global, surface: &Surface<'_>) -> Result<Module> {
    match resolve(alloc, surface) {
        Ok(module) => Ok(module),
        Err(_) => bail!("the names of the text have a fault"),
    }
}

/// How many entries the body of a function has, which is none for other fields.
fn entries_in(field: &Field<'_>) -> usize {
    match field {
        Field::Func(func) => match func.desc() {
            FuncSeen::Code { body, .. } => body.code().entries().len(),
            FuncSeen::Import(_) => 0,
        },
        _ => 0,
    }
}

/// How many entries the bodies of functions have.
fn entries_of(fields: &[Field<'_>]) -> usize {
    let mut count = 0usize;
    for field in fields {
        count = count.saturating_add(entries_in(field));
    }
    count
}

/// Makes the tokens of the text.
pub fn make_tokens(rt: &HostRuntime, text: &[u8]) -> Result<Made> {
    let start = Instant::now(rt)?;
    let tokens = tokens_of(rt.alloc(), text)?;
    made_since(rt, start, tokens.as_slice().len())
}

/// Makes what the tokens say, and tells how many they are.
fn surface_made(rt: &HostRuntime, tokens: &Tokens<'_>) -> Result<Made> {
    let start = Instant::now(rt)?;
    let _surface = surface_of(rt.alloc(), tokens)?;
    made_since(rt, start, tokens.as_slice().len())
}

/// Makes what the text says, and tells its tokens, which stand before the clock starts.
pub fn make_surface(rt: &HostRuntime, text: &[u8]) -> Result<Made> {
    let tokens = tokens_of(rt.alloc(), text)?;
    surface_made(rt, &tokens)
}

/// Makes the module of what a text says, and tells the entries of its functions.
fn module_made(rt: &HostRuntime, surface: &Surface<'_>) -> Result<Made> {
    let start = Instant::now(rt)?;
    let _module = module_of(rt.alloc(), surface)?;
    made_since(rt, start, entries_of(surface.fields()))
}

/// What these tokens say stands before the clock starts.
fn resolved(rt: &HostRuntime, tokens: &Tokens<'_>) -> Result<Made> {
    let surface = surface_of(rt.alloc(), tokens)?;
    module_made(rt, &surface)
}

/// Makes the module of the text, and tells the entries of its functions. What the text says stands before the clock
/// starts.
pub fn make_names(rt: &HostRuntime, text: &[u8]) -> Result<Made> {
    let tokens = tokens_of(rt.alloc(), text)?;
    resolved(rt, &tokens)
}
