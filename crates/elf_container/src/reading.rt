//! Reading a file: the faults of its headers, then the sections, and last the comparison with their layout.
ghost use Rattle.std.specs.Prelude.{◌≡◌, ◌≤◌, ◌+◌, ◌*◌, ◌-◌, ◌<◌, ◌^◌, ℕ, List, length, false, map, None, All, option_map, IfOk, IfSome, Ok};
ghost use Rattle.std.specs.List.{list_any};
ghost use Rattle.elf_container.specs.Layout.{layout_of};
ghost use Rattle.elf_container.specs.Views.{owned};
ghost use Rattle.elf_container.specs.Container.{FieldsFit, IsSection, IsContainer};
ghost use Rattle.elf_container.specs.declared.sections.OwnSection.{OwnSection};
ghost use Rattle.elf_container.specs.Reading.{difference, fields_by, bytes_of, passes, is_compressed, names_of, shnum, table_end, headers as headers_of, shoff, section_at, sections_at, compared, read_of, Gives};

use crate::fault::{ElfError, ElfFault, ElfKind};
use crate::form::{form_fault, header_fault};
use crate::format::{SHT_PROGBITS, SHT_RELA};
use crate::headers::{Header, headers, number16, number64};
use crate::names::name_at;
use crate::sections::{Fields, RelView, Section};
use crate::writing::lay_out_lent;
use gimple_ir::{List, NoMemory};
use std::alloc::Global;

/// The first place where the two differ; where one is the front of the other, its end.
pub fn difference(left: &[u8], right: &[u8]) -> Option<u64>
    ensures { result ≡ difference 0 left.now right.now }
{
    for place in 0..left.len() {
        if place >= right.len() {
            return Some(place as u64);
        }
        if left[place] != right[place] {
            return Some(place as u64);
        }
    }
    if left.len() < right.len() {
        Some(left.len() as u64)
    } else {
        None
    }
}

/// The bytes of a section.
fn bytes_of<'a>(bytes: &'a [u8], header: &Header) -> &'a [u8]
    requires { passes (length bytes.now) header.now ≡ false }
    ensures { result.now ≡ bytes_of bytes.now header.now }
{
    let (_, back) = bytes.split_at(header.offset as usize);
    let (front, _) = back.split_at(header.size as usize);
    front
}

/// The bytes of the last section by number.
fn names_of<'a>(bytes: &'a [u8], headers: &[Header]) -> &'a [u8]
    requires { list_any (passes (length bytes.now)) headers.now ≡ false }
    ensures { result.now ≡ names_of bytes.now headers.now }
{
    match headers.last() {
        None => &[],
        Some(header) => bytes_of(bytes, header),
    }
}

/// What a section keeps of its header.
fn fields_in(header: &Header) -> Fields
    ensures value { result ≡ fields_by header.now }
    ensures fit { FieldsFit result }
{
    Fields::new(
        header.kind,
        header.flags,
        header.link,
        header.info,
        header.entry_size,
    )
}

/// The section of a header, if its type is 1 to 4 and it has a name.
#[tactic(auto, unfolding(crate::specs::Reading::section_at))]
fn section_at<'a>(
    alloc: Global,
    bytes: &'a [u8],
    names: &[u8],
    header: &Header,
) -> Result<Option<Section<'a>>, NoMemory>
    requires within { passes (length bytes.now) header.now ≡ false }
    requires plain { is_compressed header.now ≡ false }
    ensures value { IfOk result (λ found. option_map owned found ≡ section_at bytes.now names.now header.now) }
    ensures section { IfOk result (λ found. IfSome (option_map owned found) IsSection) }
{
    let fields = fields_in(header);
    if fields.kind < SHT_PROGBITS {
        return Ok(None);
    }
    if fields.kind > SHT_RELA {
        return Ok(None);
    }
    match name_at(alloc, names, header.name as usize)? {
        None => Ok(None),
        Some(name) => Ok(Some(Section {
            name,
            kind: fields.kind,
            flags: fields.flags,
            link: fields.link,
            info: fields.info,
            entry_size: fields.entry_size,
            bytes: bytes_of(bytes, header),
        })),
    }
}

/// The sections of headers that stand from a place on.
fn sections_at<'a>(
    alloc: Global,
    bytes: &'a [u8],
    names: &[u8],
    at: u64,
    headers: &[Header],
) -> Result<Vec<Section<'a>>, ElfError>
    requires within { list_any (passes (length bytes.now)) headers.now ≡ false }
    requires plain { list_any is_compressed headers.now ≡ false }
    requires fits { at + 64 * length headers.now < 2 ^ 64 }
    ensures value { Gives (λ v. map owned v.items) result (sections_at bytes.now names.now at headers.now) }
    ensures count { IfOk result (λ v. length v.items ≡ length headers.now) }
    ensures sections { IfOk result (λ v. All IsSection (map owned v.items)) }
{
    let mut sections = Vec::new(alloc);
    for (place, header) in headers.iter().enumerate() {
        match section_at(alloc, bytes, names, header)? {
            None => {
                return Err(ElfError::Fault(ElfFault {
                    kind: ElfKind::BadLayout,
                    offset: at + 64 * place as u64,
                }));
            }
            Some(section) => sections.push(section)?,
        }
    }
    Ok(sections)
}

/// The sections, where the file is their layout.
#[tactic(auto, unfolding(crate::specs::Reading::compared))]
fn compared<'a>(
    alloc: Global,
    bytes: &[u8],
    sections: Vec<Section<'a>>,
) -> Result<RelView<'a>, ElfError>
    requires { length sections.items ≤ 65533 }
    ensures exact { Gives (λ view. view) result (compared bytes.now (map owned sections.entry.items)) }
    ensures same { IfOk result (λ view. view ≡ map owned sections.entry.items) }
{
    let layout = lay_out_lent(alloc, sections.as_slice(), bytes.len())?;
    match difference(bytes, layout.as_slice()) {
        None => Ok(RelView::new(List::from_vec(sections))),
        Some(offset) => Err(ElfError::Fault(ElfFault {
            kind: ElfKind::BadLayout,
            offset,
        })),
    }
}

/// The headers after header 0.
#[tactic(auto, unfolding(crate::specs::Reading::headers_at))]
fn later_headers(alloc: Global, bytes: &[u8]) -> Result<Vec<Header>, NoMemory>
    requires header { 64 ≤ length bytes.now }
    requires table { table_end bytes.now ≤ length bytes.now }
    ensures value { IfOk result (λ hs. hs.items ≡ headers_of bytes.now) }
    ensures count { IfOk result (λ hs. length hs.items ≡ shnum bytes.now - 1) }
    ensures small { IfOk result (λ hs. length hs.items ≤ 65534) }
{
    let at = number64(bytes, 40) as usize;
    let count = number16(bytes, 60);
    if count == 0 {
        return Ok(Vec::new(alloc));
    }
    headers(alloc, bytes, at + 64, count as usize - 1)
}

#[tactic(auto, unfolding(crate::specs::Reading::read_of))]
fn view_of(alloc: Global, bytes: &[u8]) -> Result<RelView<'_>, ElfError>
    ensures exact { Gives (λ view. view) result (read_of bytes.now) }
    ensures container { IfOk result (λ view. IsContainer view) }
{
    if let Some(fault) = form_fault(bytes) {
        return Err(ElfError::Fault(fault));
    }
    let at = number64(bytes, 40);
    let headers = later_headers(alloc, bytes)?;
    if let Some(fault) = header_fault(bytes, headers.as_slice()) {
        return Err(ElfError::Fault(fault));
    }
    let names = names_of(bytes, headers.as_slice());
    let mut sections = sections_at(alloc, bytes, names, at + 64, headers.as_slice())?;
    let _last = sections.pop();
    compared(alloc, bytes, sections)
}

/// The sections of a file but for `.shstrtab`, or the file's first fault.
pub fn read_rel(alloc: Global, bytes: &[u8]) -> Result<RelView<'_>, ElfError>
    // What is read is laid out so, and what is laid out so is read, unless memory runs out.
    ensures found { IfOk result (λ ss. bytes.now ≡ layout_of ss) }
    ensures only { (ss : List OwnSection) → IsContainer ss → bytes.now ≡ layout_of ss → Gives (λ view. view) result (Ok ss) }

    // What is read could be written.
    ensures container { IfOk result (λ ss. IsContainer ss) }

    // Which fault it is.
    ensures exact { Gives (λ view. view) result (read_of bytes.now) }
{
    view_of(alloc, bytes)
}
