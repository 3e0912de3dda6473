//! What the sections of a module tell, and the module that is made of it.

ghost use Rattle.std.specs.Prelude.{◌≡◌, length};
ghost use Rattle.wc_binary.specs.Standard.Module.{parts_of};

use std::alloc;
use wc_ast::{Codes, Data, Elem, Exports, FuncType, Funcs, Global, Imports, Limits, List, Module};

/// What each section tells. Functions are told by two: by the indices of their types, and by their codes.
#[derive(Drop)]
pub struct Parts {
    pub types: List<FuncType>,
    pub imports: Imports,
    pub func_types: List<u32>,
    pub tables: List<Limits>,
    pub mems: List<Limits>,
    pub globals: List<Global>,
    pub exports: Exports,
    pub start: Option<u32>,
    pub elems: List<Elem>,
    pub codes: Codes,
    pub datas: List<Data>,
}

impl Parts {
    ghost use Rattle.wc_binary.specs.Standard.Sections.{nothing};

    /// What no section tells.
    pub fn new(alloc: alloc::Global) -> Parts
        ensures { result ≡ nothing }
    {
        Parts {
            types: List::new(alloc),
            imports: Imports::new(alloc),
            func_types: List::new(alloc),
            tables: List::new(alloc),
            mems: List::new(alloc),
            globals: List::new(alloc),
            exports: Exports::new(alloc),
            start: None,
            elems: List::new(alloc),
            codes: Codes::new(alloc),
            datas: List::new(alloc),
        }
    }

    /// The module that has these parts. It takes no memory.
    pub fn into_module(self) -> Module
        requires { length self.func_types ≡ length self.codes }
        ensures { parts_of result ≡ self }
    {
        let Parts {
            types,
            imports,
            func_types,
            tables,
            mems,
            globals,
            exports,
            start,
            elems,
            codes,
            datas,
        } = self;
        Module {
            types,
            imports,
            funcs: Funcs::of(func_types, codes),
            tables,
            mems,
            globals,
            exports,
            start,
            elems,
            datas,
        }
    }
}
