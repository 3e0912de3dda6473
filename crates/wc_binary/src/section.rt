//! Sections (Core 1.0, 5.5.2).

use crate::tables::Tables;
use wc_ast::{Codes, Data, Elem, Exports, FuncType, Global, Imports, Limits, List};

/// Which section an id names.
#[derive(Clone, Copy, Debug, PartialEq, Eq)]
pub enum SectionKind {
    Custom,
    Type,
    Import,
    Function,
    Table,
    Memory,
    Global,
    Export,
    Start,
    Element,
    Code,
    Data,
}

impl SectionKind {
    ghost use Rattle.std.specs.Prelude.{◌≡◌};
    ghost use Rattle.wc_binary.specs.Standard.Sections.{section_id, kind_of};

    /// The section of an id.
    pub fn of_id(id: u8) -> Option<SectionKind>
        ensures { result ≡ kind_of id }
    {
        match id {
            0 => Some(SectionKind::Custom),
            1 => Some(SectionKind::Type),
            2 => Some(SectionKind::Import),
            3 => Some(SectionKind::Function),
            4 => Some(SectionKind::Table),
            5 => Some(SectionKind::Memory),
            6 => Some(SectionKind::Global),
            7 => Some(SectionKind::Export),
            8 => Some(SectionKind::Start),
            9 => Some(SectionKind::Element),
            10 => Some(SectionKind::Code),
            11 => Some(SectionKind::Data),
            _ => None,
        }
    }

    /// The id of the section.
    pub fn id(self) -> u8
        ensures { result ≡ section_id self }
    {
        match self {
            SectionKind::Custom => 0,
            SectionKind::Type => 1,
            SectionKind::Import => 2,
            SectionKind::Function => 3,
            SectionKind::Table => 4,
            SectionKind::Memory => 5,
            SectionKind::Global => 6,
            SectionKind::Export => 7,
            SectionKind::Start => 8,
            SectionKind::Element => 9,
            SectionKind::Code => 10,
            SectionKind::Data => 11,
        }
    }
}

/// A section, as it is read.
#[derive(Drop)]
pub enum Section {
    /// A custom section, whose content is dropped.
    Custom,
    Types(List<FuncType>),
    Imports(Imports),
    /// The indices of the types of functions.
    FuncTypes(List<u32>),
    Tables(Tables),
    Mems(List<Limits>),
    Globals(List<Global>),
    Exports(Exports),
    /// The index of the start function. Where the section stands, there is one.
    Start(Option<u32>),
    Elems(List<Elem>),
    Codes(Codes),
    Datas(List<Data>),
}

impl Section {
    ghost use Rattle.std.specs.Prelude.{◌≡◌};
    ghost use Rattle.wc_binary.specs.Standard.Sections.{kind_in};

    /// Which section it is.
    pub fn kind(&self) -> SectionKind
        ensures { result ≡ kind_in self.now }
    {
        match self {
            Section::Custom => SectionKind::Custom,
            Section::Types(_) => SectionKind::Type,
            Section::Imports(_) => SectionKind::Import,
            Section::FuncTypes(_) => SectionKind::Function,
            Section::Tables(_) => SectionKind::Table,
            Section::Mems(_) => SectionKind::Memory,
            Section::Globals(_) => SectionKind::Global,
            Section::Exports(_) => SectionKind::Export,
            Section::Start(_) => SectionKind::Start,
            Section::Elems(_) => SectionKind::Element,
            Section::Codes(_) => SectionKind::Code,
            Section::Datas(_) => SectionKind::Data,
        }
    }
}
