//! The widths of a module's numbers, which the types of its parts keep.

ghost use Rattle.std.specs.List.{AllByRecursion};
ghost use Rattle.wc_body.specs.Standard.ValueBytes.{Fits32};
ghost use Rattle.wc_print.specs.Standard.Printable.{IsByte};
ghost use Rattle.wc_readback.specs.Grammar.Fitting.{FitsOptional, FitsLimits, FitsDesc, FitsImport, FitsFunc};
ghost use Rattle.wc_readback.specs.Grammar.Fitting.{FitsGlobal, FitsExport, FitsElem, FitsData, Fits};

use wc_ast::{
    Data, Desc, Elem, ExportRef, Exports, FuncRef, Funcs, Global, ImportRef, Imports, Limits,
    Module,
};

/// A part of a module that fits.
trait Part: Sized {
    ghost fits: { Self → Type 0 };

    /// Nothing is done: the part fits.
    fn part_fits(&self)
        ensures { fits self.now };
}

/// Each part fits.
fn all_fit<P: Part>(parts: &[P])
    ensures { AllByRecursion P.fits parts.now }
{
    for part in parts {
        part.part_fits();
    }
}

fn numbers_fit(numbers: &[u32])
    ensures { AllByRecursion Fits32 numbers.now }
{}

fn bytes_fit(bytes: &[u8])
    ensures { AllByRecursion IsByte bytes.now }
{}

fn optional_fits(number: Option<u32>)
    ensures { FitsOptional number }
{
    match number {
        Some(_) => (),
        None => (),
    }
}

fn limits_fit(limits: Limits)
    ensures { FitsLimits limits }
{
    optional_fits(limits.max);
}

fn desc_fits(desc: Desc)
    ensures { FitsDesc desc }
{
    match desc {
        Desc::Table(limits) | Desc::Memory(limits) => limits_fit(limits),
        Desc::Func(_) | Desc::Global(_) => (),
    }
}

/// A function fits.
fn func_fits(func: &FuncRef<'_>)
    ensures { FitsFunc func.now }
{
    let _index = func.ty();
    let _bytes = func.body().bytes();
}

/// Each function fits.
fn funcs_fit(funcs: &Funcs)
    ensures { AllByRecursion FitsFunc funcs.now }
{
    let mut left = funcs.iter();
    while let Some(func) = left.next() {
        func_fits(&func);
    }
}

/// An import fits.
fn import_fits(import: &ImportRef<'_>)
    ensures { FitsImport import.now }
{
    let _module = import.module();
    let _name = import.name();
    desc_fits(import.desc());
}

/// Each import fits.
fn imports_fit(imports: &Imports)
    ensures { AllByRecursion FitsImport imports.now }
{
    let mut left = imports.iter();
    while let Some(import) = left.next() {
        import_fits(&import);
    }
}

/// An export fits.
fn export_fits(export: &ExportRef<'_>)
    ensures { FitsExport export.now }
{
    let _name = export.name();
    let _index = export.index();
}

/// Each export fits.
fn exports_fit(exports: &Exports)
    ensures { AllByRecursion FitsExport exports.now }
{
    let mut left = exports.iter();
    while let Some(export) = left.next() {
        export_fits(&export);
    }
}

impl Part for Limits {
    ghost fits = { FitsLimits };

    fn part_fits(&self) {
        limits_fit(*self);
    }
}

impl Part for Global {
    ghost fits = { FitsGlobal };

    fn part_fits(&self) {
        let _bytes = self.init.bytes();
    }
}

impl Part for Elem {
    ghost fits = { FitsElem };

    fn part_fits(&self) {
        let _table = self.table;
        let _bytes = self.offset.bytes();
        numbers_fit(self.funcs.as_slice());
    }
}

impl Part for Data {
    ghost fits = { FitsData };

    fn part_fits(&self) {
        let _memory = self.memory;
        let _offset = self.offset.bytes();
        bytes_fit(self.bytes.as_slice());
    }
}

/// The numbers of a module have the widths of their types, and its names are UTF-8 (Core 1.0, 2.2.2 and 2.2.4). It
/// does nothing, in time that grows with the number of the module's parts.
pub fn module_fits(module: &Module)
    ensures { Fits module.now }
{
    imports_fit(&module.imports);
    funcs_fit(&module.funcs);
    all_fit(module.tables.as_slice());
    all_fit(module.mems.as_slice());
    all_fit(module.globals.as_slice());
    exports_fit(&module.exports);
    optional_fits(module.start);
    all_fit(module.elems.as_slice());
    all_fit(module.datas.as_slice());
}
