//! The sections of a module, in their order (WebAssembly Core 1.0, sections 5.5.2 and 5.5.3; Core 2.0, sections 5.5.2 and 5.5.15, for the count of data segments).
ghost use Rattle.std.specs.Prelude.{◌≡◌};
ghost use Rattle.wasm_code.specs.Faults.{Gives, Tells};
ghost use Rattle.wasm_reader.specs.Modules.{at_start};
ghost use Rattle.wasm_reader.specs.Sections.{in_order, one_section, part_of, rank_of, rank_of_part, rising, section_content as section_content_syntax, section_id as section_id_syntax, section_of};

use crate::ReadFault;
use crate::bodies::{Bodies, body_count};
use crate::imports::{Imported, MOST_FUNCTIONS, MOST_GLOBALS, imports};
use crate::items::{
    DataSegments, ElementSegments, Exports, FunctionTypes, Globals, Indices, Memories, Tables,
    segment_count,
};
use crate::vectors::{items, vector, vector_within};
use std::alloc::Global;
use wasm_ops::{Cursor, Fault, Items, Module, Refusal};

// The most function types of a module.
const MOST_TYPES: u32 = 1_000;

/// A part of a module that stands in a section of its own, in the order of the sections (section 5.5.2).
#[derive(Clone, Copy)]
pub(crate) enum Part {
    /// Function types (id 1).
    Types,

    /// Imports (2).
    Imports,

    /// The type of each function (3).
    Functions,

    /// Tables (4).
    Tables,

    /// Memories (5).
    Memories,

    /// Globals (6).
    Globals,

    /// Exports (7).
    Exports,

    /// The start function (8).
    Start,

    /// Element segments (9).
    Elements,

    /// The body of each function (10).
    Bodies,

    /// Data segments (11).
    Segments,
}

impl Part {
    // Where its section stands in the order of sections.
    fn rank(self) -> u8
        ensures { result ≡ rank_of_part self }
    {
        match self {
            Part::Types => 1,
            Part::Imports => 2,
            Part::Functions => 3,
            Part::Tables => 4,
            Part::Memories => 5,
            Part::Globals => 6,
            Part::Exports => 7,
            Part::Start => 8,
            Part::Elements => 9,
            Part::Bodies => 11,
            Part::Segments => 12,
        }
    }
}

/// What a section holds.
#[derive(Clone, Copy)]
pub(crate) enum Section {
    /// A name, and bytes that mean nothing to the module (id 0).
    Custom,

    /// How many data segments there are (id 12), which stands before the bodies.
    DataCount,

    /// A part of the module.
    Part(Part),
}

impl Section {
    fn of(id: u8) -> Option<Section>
        ensures { result ≡ section_of id }
    {
        match id {
            0 => Some(Section::Custom),
            1 => Some(Section::Part(Part::Types)),
            2 => Some(Section::Part(Part::Imports)),
            3 => Some(Section::Part(Part::Functions)),
            4 => Some(Section::Part(Part::Tables)),
            5 => Some(Section::Part(Part::Memories)),
            6 => Some(Section::Part(Part::Globals)),
            7 => Some(Section::Part(Part::Exports)),
            8 => Some(Section::Part(Part::Start)),
            9 => Some(Section::Part(Part::Elements)),
            10 => Some(Section::Part(Part::Bodies)),
            11 => Some(Section::Part(Part::Segments)),
            12 => Some(Section::DataCount),
            _ => None,
        }
    }

    // Where it stands in the order of sections; 0 for a custom one, which stands anywhere.
    fn rank(self) -> u8
        ensures { result ≡ rank_of self }
    {
        match self {
            Section::Custom => 0,
            Section::DataCount => 10,
            Section::Part(part) => part.rank(),
        }
    }
}

/// What has been read of a module.
#[derive(Drop)]
pub(crate) struct Progress {
    /// The rank of the last section that is not custom, and 0 where there is none yet.
    pub(crate) last: u8,

    /// How many data segments there have to be, if a section says so.
    pub(crate) data_count: Option<u32>,

    /// The parts so far.
    pub(crate) parts: Module,
}

impl Progress {
    /// Nothing yet.
    pub(crate) fn new(alloc: Global) -> Progress
        ensures { result ≡ at_start }
    {
        Progress {
            last: 0,
            data_count: None,
            parts: Module {
                types: Items::new(Vec::new(alloc)),
                imports: Items::new(Vec::new(alloc)),
                functions: Items::new(Vec::new(alloc)),
                tables: Items::new(Vec::new(alloc)),
                memories: Items::new(Vec::new(alloc)),
                globals: Items::new(Vec::new(alloc)),
                exports: Items::new(Vec::new(alloc)),
                start: None,
                elements: Items::new(Vec::new(alloc)),
                bodies: Items::new(Vec::new(alloc)),
                segments: Items::new(Vec::new(alloc)),
            },
        }
    }
}

/// The next section.
pub(crate) fn read_section(
    alloc: Global,
    progress: &mut Progress,
    cursor: &mut Cursor<'_>,
) -> Result<(), ReadFault>
    ensures { Gives (λ _. (progress.new, cursor.new)) result ((one_section progress.old).read cursor.old) }
{
    let section = section_id(progress.last, cursor)?;
    let size = cursor.u32_leb()?;
    let mut window = cursor.window(size, Refusal::SectionSize)?;
    section_content(alloc, section, progress, &mut window)
}

// What the next section holds. Refused: `UnknownSection` at an unknown id, and `SectionOrder` at one that does not stand behind the last one.
fn section_id(last: u8, cursor: &mut Cursor<'_>) -> Result<Section, Fault>
    ensures { Tells (λ section. (section, cursor.new)) result ((section_id_syntax last).read cursor.old) }
{
    let at = cursor.at();
    let Some(section) = Section::of(cursor.byte()?) else {
        return Err(Refusal::UnknownSection.at(at));
    };
    match rising(last, section) {
        Some(section) => Ok(section),
        None => Err(Refusal::SectionOrder.at(at)),
    }
}

// The section, where it stands behind the last one.
fn rising(last: u8, section: Section) -> Option<Section>
    ensures { result ≡ rising last section }
{
    match section {
        Section::Custom => Some(Section::Custom),
        Section::DataCount => in_order(last, Section::DataCount),
        Section::Part(part) => in_order(last, Section::Part(part)),
    }
}

// The section, where its rank is above the last one.
fn in_order(last: u8, section: Section) -> Option<Section>
    ensures { result ≡ in_order last section }
{
    if last < section.rank() {
        Some(section)
    } else {
        None
    }
}

// What stands in a section. Of a custom one only the name is read.
fn section_content(
    alloc: Global,
    section: Section,
    progress: &mut Progress,
    window: &mut Cursor<'_>,
) -> Result<(), ReadFault>
    ensures { Gives (λ _. (progress.new, window.new)) result ((section_content_syntax section progress.old).read window.old) }
{
    match section {
        Section::Custom => {
            window.text()?;
        }
        Section::DataCount => {
            let count = window.u32_leb()?;
            if !window.is_at_end() {
                return Err(ReadFault::Bytes(Refusal::SectionSize.at(window.at())));
            }
            progress.data_count = Some(count);
            progress.last = Section::DataCount.rank();
        }
        Section::Part(part) => {
            read_part(
                alloc,
                part,
                progress.data_count,
                &mut progress.parts,
                window,
            )?;
            if !window.is_at_end() {
                return Err(ReadFault::Bytes(Refusal::SectionSize.at(window.at())));
            }
            progress.last = part.rank();
        }
    }
    Ok(())
}

// One more part of a module, which has so many data segments, if that was said.
fn read_part(
    alloc: Global,
    part: Part,
    data_count: Option<u32>,
    parts: &mut Module,
    window: &mut Cursor<'_>,
) -> Result<(), ReadFault>
    ensures { Gives (λ _. (parts.new, window.new)) result ((part_of part data_count parts.old).read window.old) }
{
    match part {
        Part::Types => {
            let types = vector_within(alloc, 0, MOST_TYPES, FunctionTypes, window)?;
            parts.types = Items::new(types);
        }
        Part::Imports => {
            parts.imports = Items::new(imports(alloc, window)?);
        }
        Part::Functions => {
            let before = Imported::of(parts.imports.as_slice()).functions;
            let functions = vector_within(alloc, before, MOST_FUNCTIONS, Indices, window)?;
            parts.functions = Items::new(functions);
        }
        Part::Tables => parts.tables = Items::new(vector(alloc, Tables, window)?),
        Part::Memories => parts.memories = Items::new(vector(alloc, Memories, window)?),
        Part::Globals => {
            let before = Imported::of(parts.imports.as_slice()).globals;
            let globals = vector_within(alloc, before, MOST_GLOBALS, Globals, window)?;
            parts.globals = Items::new(globals);
        }
        Part::Exports => parts.exports = Items::new(vector(alloc, Exports, window)?),
        Part::Start => parts.start = Some(window.u32_leb()?),
        Part::Elements => {
            parts.elements = Items::new(vector(alloc, ElementSegments, window)?);
        }
        Part::Bodies => {
            let count = body_count(parts.functions.as_slice().len(), window)?;
            parts.bodies = Items::new(items(alloc, Bodies, count, window)?);
        }
        Part::Segments => {
            let count = segment_count(data_count, window)?;
            parts.segments = Items::new(items(alloc, DataSegments, count, window)?);
        }
    }
    Ok(())
}
