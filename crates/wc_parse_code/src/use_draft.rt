//! Type uses that are being said.

ghost use Rattle.std.specs.Prelude.{◌≡◌, IfOk, IfSome, OnOk};
ghost use Rattle.wc_surface.specs.Kept.Funcs.{plain_use};
ghost use Rattle.wc_parse_code.specs.Drafting.Uses.{started_use, begun_use, take_use, use_of, short_type};

use crate::row::Row;
use crate::word::{Word, identifier_of, index_of};
use std::alloc::{AllocError, Global};
use wc_ops::ValType;
use wc_surface::{FuncWord, Id, Index, ParamName, Signature, TypeUse, User};
use wc_symbols::Value;
use wc_syntax::Role;

/// A type use that is being said (Core 1.0, 6.6.3), or the parameters and results of a type (6.4.3). `take_use` says
/// what each kept token adds.
#[derive(Drop)]
pub struct UseDraft<'a> {
    user: User,
    token: u32,
    index: Option<Index<'a>>,
    params: Row<ValType>,
    pending: Option<Id<'a>>,
    names: Row<ParamName<'a>>,
    results: Row<ValType>,
}

impl<'a> UseDraft<'a> {
    /// The use of this user, whose word has this number. It takes no memory.
    pub fn new(alloc: Global, user: User, token: u32) -> UseDraft<'a>
        ensures { result ≡ started_use user token }
    {
        UseDraft {
            user,
            token,
            index: None,
            params: Row::new(alloc),
            pending: None,
            names: Row::new(alloc),
            results: Row::new(alloc),
        }
    }

    /// One more kept token; one that is no part of a type use adds nothing. The error is want of memory.
    pub fn take(&mut self, role: Role, word: &Word<'a>) -> Result<(), AllocError>
        ensures { OnOk result (self.new ≡ take_use self.old role word.now) }
    {
        match role {
            Role::TypeIndex => self.index = Some(index_of(word)),
            Role::ParamId => self.pending = Some(identifier_of(word)),
            Role::ParamType => self.take_param(word.symbol.value)?,
            Role::ResultType => self.take_result(word.symbol.value)?,
            _ => {}
        }
        Ok(())
    }

    /// The parameters and results that are written. The error is want of memory.
    #[inline(always)]
    pub fn signature(&self) -> Result<Signature, AllocError>
        ensures { IfOk result (λ signature. signature ≡ (use_of self.now).signature) }
    {
        Signature::new(
            self.params.allocator(),
            self.params.as_slice(),
            self.results.as_slice(),
        )
    }

    /// What stands with the word that it is of, where no parameter has an identifier, and the type behind `type` is a
    /// number, or there is none. None where one has, or it is an identifier.
    #[inline(always)]
    pub fn plain(&self) -> Option<FuncWord>
        ensures { IfSome result (λ word. use_of self.now ≡ plain_use word (use_of self.now).signature) }
    {
        if !self.names.as_slice().is_empty() {
            return None;
        }
        FuncWord::of(self.user, self.token, &self.index)
    }

    /// The type use. Then the draft begins anew. The error is want of memory.
    pub fn said(&mut self) -> Result<TypeUse<'a>, AllocError>
        ensures said { IfOk result (λ u. u ≡ use_of self.old) }
        ensures anew { OnOk result (self.new ≡ started_use self.old.user self.old.token) }
    {
        let signature = self.signature()?;
        let said = TypeUse {
            user: self.user,
            token: self.token,
            index: self.index.take(),
            signature,
            names: self.names.take_list(),
        };
        self.params.clear();
        self.pending = None;
        self.results.clear();
        Ok(said)
    }
}

impl<'a> UseDraft<'a> {
    ghost use Rattle.wc_parse_code.specs.Drafting.Uses.{with_param, with_result};

    fn take_param(&mut self, value: Value) -> Result<(), AllocError>
        ensures { OnOk result (self.new ≡ with_param self.old value) }
    {
        let Value::ValType(ty) = value else {
            return Ok(());
        };
        match self.pending.take() {
            None => {}
            Some(id) => {
                let place = self.params.place_behind();
                self.names.push(ParamName { place, id })?;
            }
        }
        self.params.push(ty)
    }

    fn take_result(&mut self, value: Value) -> Result<(), AllocError>
        ensures { OnOk result (self.new ≡ with_result self.old value) }
    {
        match value {
            Value::ValType(ty) => self.results.push(ty),
            _ => Ok(()),
        }
    }

    /// Its word has this number.
    #[inline(always)]
    pub fn begin(&mut self, token: u32)
        ensures { self.new ≡ begun_use token self.old }
    {
        self.token = token;
    }

    /// Another use begins. The memory is kept.
    pub fn restart(&mut self, user: User, token: u32)
        ensures { self.new ≡ started_use user token }
    {
        self.user = user;
        self.token = token;
        self.index = None;
        self.params.clear();
        self.pending = None;
        self.names.clear();
        self.results.clear();
    }

    /// The number of the word that it is of.
    pub(crate) fn token(&self) -> u32
        ensures { result ≡ self.now.token }
    {
        self.token
    }

    /// The type of a block that needs no type use: no index, no parameters, and no more than one result (Core 2.0,
    /// 6.5.2).
    pub(crate) fn short_type(&self) -> Option<Option<ValType>>
        ensures { result ≡ short_type self.now }
    {
        match (&self.index, self.params.as_slice(), self.results.as_slice()) {
            (None, [], []) => Some(None),
            (None, [], [ty]) => Some(Some(*ty)),
            _ => None,
        }
    }
}
