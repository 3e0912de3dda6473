//! The functions of a module, in one row.

ghost use Rattle.std.specs.Prelude.{◌≡◌, IfOk};

use crate::codes::Codes;
use crate::func::Func;
use crate::func_ref::FuncRefs;
use crate::list::List;
use std::alloc::{AllocError, Global};
use std::marker::Model;
use wc_body::{Needs, TryClone};

/// Functions, in order (Core 1.0, 2.5.3). A contract sees each.
#[derive(Drop)]
pub struct Funcs {
    types: Vec<u32>,
    codes: Codes,
}

impl Model for Funcs {
    ghost use Rattle.std.specs.Prelude.{◌≡◌, List as Seq, length};
    ghost use Rattle.std.specs.Coded.{coded_list};
    ghost use Rattle.wc_ast.specs.declared.func.Func.{Func};
    ghost use Rattle.wc_ast.specs.contracts.func.Func as func;

    ghost Value = { Seq Func };

    ghost coded = { coded_list func.the_row.coded };

    ghost use Rattle.wc_ast.specs.Standard.Codes.{funcs_of};

    ghost view = { λ row. funcs_of row.types.items row.codes };

    ghost invariant = { λ row. length row.types.items ≡ length row.codes };
}

impl Funcs {
    ghost use Rattle.std.specs.Prelude.{[], ◌∷◌, ◌++◌, OnOk, OnErr, length, map};
    ghost use Rattle.wc_body.specs.Standard.Needed.{nothing, with_bodies};
    ghost use Rattle.wc_ast.specs.Standard.Codes.{type_of, code_of};

    /// No functions. It takes no memory.
    pub fn new(alloc: Global) -> Funcs
        ensures { result ≡ [] }
    {
        Funcs {
            types: Vec::new(alloc),
            codes: Codes::new(alloc),
        }
    }

    /// The functions of types of these indices and of these codes, place by place. It takes no memory.
    pub fn of(types: List<u32>, codes: Codes) -> Funcs
        requires { length types ≡ length codes }
        ensures types { map type_of result ≡ types }
        ensures codes { map code_of result ≡ codes }
    {
        Funcs {
            types: types.into_vec(),
            codes,
        }
    }

    /// How many there are.
    pub fn len(&self) -> usize
        ensures { result ≡ length self.now }
    {
        self.types.len()
    }

    /// What the instructions of all of them need. It is at hand: it takes no time.
    pub fn needs(&self) -> Needs
        ensures { result ≡ with_bodies nothing (map (λ f. f.body) self.now) }
    {
        self.codes.needs()
    }

    /// Adds a copy of the function at the end. The error is want of memory, and then the functions are as they were.
    pub fn push(&mut self, func: &Func) -> Result<(), AllocError>
        ensures ok { OnOk result (self.new ≡ self.old ++ func.now ∷ []) }
        ensures err { OnErr result (self.new ≡ self.old) }
    {
        self.types.reserve(1)?;
        self.codes.push(&func.locals, &func.body)?;
        self.types.push_reserved(func.ty);
        Ok(())
    }

    /// The indices of the types, in order. They are at hand: it takes no time.
    pub fn types(&self) -> &[u32]
        ensures { result.now ≡ map type_of self.now }
    {
        self.types.as_slice()
    }

    /// The codes, in order. They are at hand: it takes no time.
    pub fn codes(&self) -> &Codes
        ensures { result.now ≡ map code_of self.now }
    {
        &self.codes
    }

    /// The functions, one by one.
    pub fn iter(&self) -> FuncRefs<'_>
        ensures { result ≡ self.now }
    {
        FuncRefs::of_row(self.types.as_slice(), self.codes.iter())
    }
}

impl TryClone for Funcs {
    fn try_clone(&self) -> Result<Funcs, AllocError> {
        Ok(Funcs {
            types: Vec::from_slice(*self.types.allocator(), self.types.as_slice())?,
            codes: self.codes.try_clone()?,
        })
    }
}
