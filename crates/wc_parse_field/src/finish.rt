//! Fields that are said whole.

ghost use Rattle.std.specs.Prelude.{◌≡◌, IfOk};
ghost use Rattle.wc_parse_code.specs.Drafting.Ending.{ended};
ghost use Rattle.wc_parse_field.specs.Drafting.Finished.{target_of, import_by, func_by, table_by, memory_by, global_by};

use crate::code_draft::CodeDraft;
use crate::contents::Contents;
use crate::field_draft::FieldDraft;
use crate::locals_draft::LocalsDraft;
use std::alloc::{AllocError, Global};
use std::mem::replace;
use wc_ast::{ExportKind, GlobalType, Limits, List};
use wc_parse_code::UseDraft;
use wc_surface::{
    Apart, DataField, ElemField, ExportField, Field, FuncDesc, FuncField, GlobalDesc, GlobalField,
    ImportDesc, ImportField, ImportNames, Index, KeptBody, KeptFunc, MemoryDesc, MemoryField, Rare,
    RareList, StartField, TableDesc, TableField, TextLocals, TypeField, TypeUse,
};
use wc_syntax::Kind;

/// What is exported, or starts (Core 1.0, 6.6.9 and 6.6.10).
fn target_of(target: Option<Index<'_>>) -> Index<'_>
    ensures { result ≡ target_of target.entry }
{
    match target {
        Some(index) => index,
        None => Index::Number { token: 0, value: 0 },
    }
}

/// What an import brings (Core 1.0, 6.6.4). The error is want of memory.
fn import_by<'a>(
    description: ExportKind,
    ty: &mut UseDraft<'a>,
    limits: Limits,
    global: GlobalType,
) -> Result<ImportDesc<'a>, AllocError>
    ensures { IfOk result (λ desc. desc ≡ import_by description ty.old limits global) }
{
    match description {
        ExportKind::Func => Ok(ImportDesc::Func(ty.said()?)),
        ExportKind::Table => Ok(ImportDesc::Table(limits)),
        ExportKind::Memory => Ok(ImportDesc::Memory(limits)),
        ExportKind::Global => Ok(ImportDesc::Global(global)),
    }
}

/// How a function is given (Core 1.0, 6.6.5). The error is want of memory.
fn func_by<'a>(
    alloc: Global,
    imported: Option<ImportNames<'a>>,
    locals: &mut LocalsDraft<'a>,
    code: &mut CodeDraft<'a>,
) -> Result<FuncDesc<'a>, AllocError>
    ensures { IfOk result (λ desc. desc ≡ func_by imported.entry locals.old code.old) }
{
    match imported {
        Some(names) => Ok(FuncDesc::Import(names)),
        None => Ok(FuncDesc::Code {
            body: code.take_body()?,
            locals: replace(&mut locals.locals, TextLocals::new(alloc)),
        }),
    }
}

/// How a table is given (Core 1.0, 6.6.6). The error is want of memory.
fn table_by<'a>(
    alloc: Global,
    imported: Option<ImportNames<'a>>,
    limits: Limits,
    contents: &mut Contents<'a>,
) -> Result<TableDesc<'a>, AllocError>
    ensures { IfOk result (λ desc. desc ≡ table_by imported.entry limits contents.old) }
{
    match (imported, contents.inside) {
        (Some(names), _) => Ok(TableDesc::Import(Apart::new(alloc, names)?, limits)),
        (None, true) => Ok(TableDesc::Elems(replace(&mut contents.elements, List::new(alloc)))),
        (None, false) => Ok(TableDesc::Limits(limits)),
    }
}

/// How a memory is given (Core 1.0, 6.6.7). The error is want of memory.
fn memory_by<'a>(
    alloc: Global,
    imported: Option<ImportNames<'a>>,
    limits: Limits,
    contents: &mut Contents<'_>,
) -> Result<MemoryDesc<'a>, AllocError>
    ensures { IfOk result (λ desc. desc ≡ memory_by imported.entry limits contents.old) }
{
    match (imported, contents.inside) {
        (Some(names), _) => Ok(MemoryDesc::Import(Apart::new(alloc, names)?, limits)),
        (None, true) => Ok(MemoryDesc::Bytes(replace(&mut contents.bytes, List::new(alloc)))),
        (None, false) => Ok(MemoryDesc::Limits(limits)),
    }
}

/// The instructions of a first value or of an offset (Core 1.0, 6.5.8). The error is want of memory.
fn kept_body<'a>(alloc: Global, code: &mut CodeDraft<'a>) -> Result<KeptBody<'a>, AllocError>
    ensures { IfOk result (λ kept. kept ≡ ended code.old.body) }
{
    KeptBody::new(alloc, code.take_body()?)
}

/// How a global is given (Core 1.0, 6.6.8). The error is want of memory.
fn global_by<'a>(
    alloc: Global,
    imported: Option<ImportNames<'a>>,
    code: &mut CodeDraft<'a>,
) -> Result<GlobalDesc<'a>, AllocError>
    ensures { IfOk result (λ desc. desc ≡ global_by imported.entry code.old) }
{
    match imported {
        Some(names) => Ok(GlobalDesc::Import(Apart::new(alloc, names)?)),
        None => Ok(GlobalDesc::Init(kept_body(alloc, code)?)),
    }
}

impl<'a> FieldDraft<'a> {
    ghost use Rattle.wc_parse_field.specs.Drafting.Finished.{finished, type_field, import_field, func_field};
    ghost use Rattle.wc_parse_field.specs.Drafting.Finished.{table_field, memory_field, global_field, export_field};
    ghost use Rattle.wc_parse_field.specs.Drafting.Finished.{elem_field, data_field, start_field};
    ghost use Rattle.wc_parse_field.specs.Drafting.Fields.{started};
    ghost use Rattle.wc_syntax.specs.declared.kind.Kind.TheVariants.{OtherWord};
    ghost use Rattle.std.specs.Prelude.{◌≡◌, IfOk, MatchOption, OnOk};

    /// The field. Then the draft is that of no field. The error is want of memory.
    pub fn said(&mut self, alloc: Global) -> Result<Field<'a>, AllocError>
        ensures said { IfOk result (λ f. f ≡ finished self.old) }
        ensures anew { OnOk result (self.new ≡ started OtherWord 0) }
    {
        let field = self.take_field(alloc)?;
        self.restart(alloc, Kind::OtherWord, 0);
        Ok(field)
    }

    // The parts of the field are taken out of the draft.
    fn take_field(&mut self, alloc: Global) -> Result<Field<'a>, AllocError>
        ensures { IfOk result (λ f. f ≡ finished self.old) }
    {
        match self.kind {
            Kind::TypeWord => Ok(Field::FuncType(self.take_type()?)),
            Kind::ImportWord => Ok(Field::Import(self.take_apart_import(alloc)?)),
            Kind::FuncWord => Ok(Field::Func(self.take_kept_func(alloc)?)),
            Kind::TableWord => Ok(Field::Table(self.take_table(alloc)?)),
            Kind::MemoryWord => Ok(Field::Memory(self.take_memory(alloc)?)),
            Kind::GlobalWord => Ok(Field::Global(self.take_global(alloc)?)),
            Kind::ExportWord => Ok(Field::Export(self.take_export())),
            Kind::ElemWord => Ok(Field::Elem(self.take_elem(alloc)?)),
            Kind::DataWord => Ok(Field::Data(self.take_data(alloc)?)),
            _ => Ok(Field::Start(self.take_start())),
        }
    }

    fn take_type(&mut self) -> Result<TypeField<'a>, AllocError>
        ensures { IfOk result (λ f. f ≡ type_field self.old) }
    {
        let TypeUse {
            signature,
            names,
            ..
        } = self.ty.said()?;
        Ok(TypeField {
            id: self.names.id.take(),
            signature,
            names,
        })
    }

    // An import is large, so the places that it passes through stay out of the way of other fields.
    #[inline(never)]
    fn take_apart_import(&mut self, alloc: Global) -> Result<Apart<ImportField<'a>>, AllocError>
        ensures { IfOk result (λ f. f ≡ import_field self.old) }
    {
        Apart::new(alloc, self.take_import(alloc)?)
    }

    fn take_import(&mut self, alloc: Global) -> Result<ImportField<'a>, AllocError>
        ensures { IfOk result (λ f. f ≡ import_field self.old) }
    {
        let desc = import_by(self.description, &mut self.ty, self.limits, self.global)?;
        Ok(ImportField {
            id: self.names.id.take(),
            names: self.names.take_asked(self.token),
            desc,
        })
    }

    // Most functions of a text are plain: they are kept without the parts that few have.
    fn take_kept_func(&mut self, alloc: Global) -> Result<KeptFunc<'a>, AllocError>
        ensures { IfOk result (λ f. f ≡ func_field self.old) }
    {
        match self.take_plain_func()? {
            Some(func) => Ok(func),
            None => self.take_any_func(alloc),
        }
    }

    #[inline(never)]
    fn take_any_func(&mut self, alloc: Global) -> Result<KeptFunc<'a>, AllocError>
        ensures { IfOk result (λ f. f ≡ func_field self.old) }
    {
        KeptFunc::new(alloc, self.take_func(alloc)?)
    }

    /// The function, where it is of its word, its signature and its instructions alone. Else it stays what it was.
    #[inline(always)]
    fn take_plain_func(&mut self) -> Result<Option<KeptFunc<'a>>, AllocError>
        ensures { IfOk result (λ found.
            MatchOption found (func_field self.new ≡ func_field self.old) (λ f. f ≡ func_field self.old)) }
    {
        if !self.names.is_unnamed() || !self.locals.locals.groups().is_empty() {
            return Ok(None);
        }
        let Some(word) = self.ty.plain() else {
            return Ok(None);
        };
        match self.code.plain_code()? {
            None => Ok(None),
            Some(code) => Ok(Some(KeptFunc::plain(word, self.ty.signature()?, code))),
        }
    }

    fn take_func(&mut self, alloc: Global) -> Result<FuncField<'a>, AllocError>
        ensures { IfOk result (λ f. f ≡ func_field self.old) }
    {
        let ty = self.ty.said()?;
        let id = self.names.id.take();
        let exports = replace(&mut self.names.exports, List::new(alloc));
        let imported = self.names.take_imported();
        Ok(FuncField {
            id,
            exports,
            ty,
            desc: func_by(alloc, imported, &mut self.locals, &mut self.code)?,
        })
    }

    fn take_table(&mut self, alloc: Global) -> Result<TableField<'a>, AllocError>
        ensures { IfOk result (λ f. f ≡ table_field self.old) }
    {
        let id = self.names.id.take();
        let exports = replace(&mut self.names.exports, List::new(alloc));
        let imported = self.names.take_imported();
        Ok(TableField {
            id,
            exports,
            desc: table_by(alloc, imported, self.limits, &mut self.contents)?,
        })
    }

    fn take_memory(&mut self, alloc: Global) -> Result<MemoryField<'a>, AllocError>
        ensures { IfOk result (λ f. f ≡ memory_field self.old) }
    {
        let id = self.names.id.take();
        let exports = replace(&mut self.names.exports, List::new(alloc));
        let imported = self.names.take_imported();
        Ok(MemoryField {
            id,
            exports,
            desc: memory_by(alloc, imported, self.limits, &mut self.contents)?,
        })
    }

    fn take_global(&mut self, alloc: Global) -> Result<GlobalField<'a>, AllocError>
        ensures { IfOk result (λ f. f ≡ global_field self.old) }
    {
        let id = self.names.id.take();
        let exports = replace(&mut self.names.exports, List::new(alloc));
        let imported = self.names.take_imported();
        Ok(GlobalField {
            id: Rare::of(alloc, id)?,
            exports: RareList::of(alloc, exports)?,
            ty: self.global,
            desc: global_by(alloc, imported, &mut self.code)?,
        })
    }

    fn take_export(&mut self) -> ExportField<'a>
        ensures { result ≡ export_field self.old }
    {
        ExportField {
            name: self.names.take_item(),
            kind: self.description,
            index: target_of(self.contents.target.take()),
        }
    }

    fn take_elem(&mut self, alloc: Global) -> Result<ElemField<'a>, AllocError>
        ensures { IfOk result (λ f. f ≡ elem_field self.old) }
    {
        Ok(ElemField {
            table: Rare::of(alloc, self.contents.target.take())?,
            offset: kept_body(alloc, &mut self.code)?,
            funcs: replace(&mut self.contents.elements, List::new(alloc)),
        })
    }

    fn take_data(&mut self, alloc: Global) -> Result<DataField<'a>, AllocError>
        ensures { IfOk result (λ f. f ≡ data_field self.old) }
    {
        Ok(DataField {
            memory: Rare::of(alloc, self.contents.target.take())?,
            offset: kept_body(alloc, &mut self.code)?,
            bytes: replace(&mut self.contents.bytes, List::new(alloc)),
        })
    }

    fn take_start(&mut self) -> StartField<'a>
        ensures { result ≡ start_field self.old }
    {
        StartField {
            token: self.token,
            index: target_of(self.contents.target.take()),
        }
    }
}
