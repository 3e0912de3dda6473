//! Modules.

ghost use Rattle.std.specs.Prelude.{◌≡◌, [], IfOk, OnOk};

use crate::exports::Exports;
use crate::func::Global;
use crate::func_type::FuncType;
use crate::funcs::Funcs;
use crate::imports::Imports;
use crate::limits::Limits;
use crate::list::List;
use crate::segment::{Data, Elem};
use std::alloc::{self, AllocError};
use wc_body::TryClone;

/// A module (Core 1.0, 2.5). Indices count imports first, where a kind can be imported.
#[derive(Drop)]
pub struct Module {
    pub types: List<FuncType>,
    pub imports: Imports,
    /// The functions that the module defines.
    pub funcs: Funcs,
    /// Tables, by their limits: a table holds references to functions.
    pub tables: List<Limits>,
    /// Memories, by their limits.
    pub mems: List<Limits>,
    pub globals: List<Global>,
    pub exports: Exports,
    /// The index of the start function, where there is one.
    pub start: Option<u32>,
    pub elems: List<Elem>,
    pub datas: List<Data>,
}

impl Module {
    /// The module of nothing. It takes no memory.
    pub fn new(alloc: alloc::Global) -> Module
        ensures types { result.types ≡ [] }
        ensures imports { result.imports ≡ [] }
        ensures funcs { result.funcs ≡ [] }
        ensures tables { result.tables ≡ [] }
        ensures mems { result.mems ≡ [] }
        ensures globals { result.globals ≡ [] }
        ensures exports { result.exports ≡ [] }
        ensures start { result.start ≡ None }
        ensures elems { result.elems ≡ [] }
        ensures datas { result.datas ≡ [] }
    {
        Module {
            types: List::new(alloc),
            imports: Imports::new(alloc),
            funcs: Funcs::new(alloc),
            tables: List::new(alloc),
            mems: List::new(alloc),
            globals: List::new(alloc),
            exports: Exports::new(alloc),
            start: None,
            elems: List::new(alloc),
            datas: List::new(alloc),
        }
    }

    /// An equal module, in memory of its own. The error is want of memory.
    pub fn try_clone(&self) -> Result<Module, AllocError>
        ensures { IfOk result (λ copy. copy ≡ self.now) }
    {
        let mut copy = Module::new(self.types.allocator());
        self.copy_into(&mut copy)?;
        Ok(copy)
    }

    /// Makes another module equal to this one. The error is want of memory.
    // What is copied so far stands in the other one, so nothing has to be let go where memory is refused.
    fn copy_into(&self, copy: &mut Module) -> Result<(), AllocError>
        ensures { OnOk result (copy.new ≡ self.now) }
    {
        copy.types = self.types.try_clone()?;
        copy.imports = self.imports.try_clone()?;
        copy.funcs = self.funcs.try_clone()?;
        copy.tables = self.tables.try_copy()?;
        copy.mems = self.mems.try_copy()?;
        copy.globals = self.globals.try_clone()?;
        copy.exports = self.exports.try_clone()?;
        copy.start = self.start;
        copy.elems = self.elems.try_clone()?;
        copy.datas = self.datas.try_clone()?;
        Ok(())
    }
}
