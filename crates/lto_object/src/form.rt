//! Whether a file's sections are those of an object.
ghost use Rattle.std.specs.Prelude.{◌≡◌, ◌≤◌, ◌||◌, ℕ, List, [], ◌∷◌, length, map, None, IfOk, IfSome, OnOk};
ghost use Rattle.std.specs.List.{list_all};
ghost use Rattle.std.specs.Str.{bytes_eq};
ghost use Rattle.gimple_ir.specs.Names.{is_among};
ghost use Rattle.elf_container.specs.Views.{owned};
ghost use Rattle.elf_container.specs.SeenNames.{holds};
ghost use Rattle.elf_container.specs.ObjectReading.{part};
ghost use Rattle.lto_object.specs.Forms.{form_names, all_names, double_from, has_form, misplaced_from, double_section, missing_section, misplaced_section, wrong_version, sections_fault};

use crate::fault::ObjectFault;
use crate::sections::{SHF_EXCLUDE, SHT_PROGBITS};
use elf_container::{RelView, Section};
use gimple_ir::NoMemory;
use std::alloc::Global;
use std::collections::BTreeMap;

/// The names of an object's sections, in order.
static FORM: [&str; 5] = [
    ".gnu.lto_.version",
    ".gnu.lto_.decls",
    ".gnu.lto_.bodies",
    ".gnu.lto_.summaries",
    ".gnu.lto_.symbols",
];

/// The names seen so far.
type Seen<'a> = BTreeMap<&'a str, ()>;

/// Adds a name, and tells whether it was there.
fn add<'a>(seen: &mut Seen<'a>, name: &'a str) -> Result<bool, NoMemory>
    ensures found { IfOk result (λ found. found ≡ holds seen.old name.now) }
    ensures added { OnOk result ((q : List ℕ) → holds seen.new q ≡ (bytes_eq q name.now || holds seen.old q)) }
{
    let old = seen.insert(name, ())?;
    Ok(old.is_some())
}

/// The place of the first section whose name stands before it; `.shstrtab` is the last.
fn double(alloc: Global, sections: &[Section]) -> Result<Option<usize>, NoMemory>
    ensures value { IfOk result (λ found. found ≡ double_from 0 [] (all_names (map owned sections.now))) }
    ensures within { IfOk result (λ found. IfSome found (λ place. place ≤ length sections.now)) }
{
    let mut seen = BTreeMap::new(alloc);
    for (place, section) in sections.iter().enumerate() {
        if add(&mut seen, section.name.as_str())? {
            return Ok(Some(place));
        }
    }
    if add(&mut seen, ".shstrtab")? {
        return Ok(Some(sections.len()));
    }
    Ok(None)
}

fn double_section(alloc: Global, view: &RelView) -> Result<Option<ObjectFault>, NoMemory>
    ensures { IfOk result (λ fault. fault ≡ double_section view.now) }
{
    match double(alloc, view.sections().as_slice())? {
        None => Ok(None),
        Some(place) => Ok(Some(ObjectFault::DoubleSection {
            offset: view.header_of(place),
        })),
    }
}

/// Whether a section has the name.
fn has_section(sections: &[Section], name: &str) -> bool
    ensures { result ≡ is_among (map (λ s. s.name) (map owned sections.now)) name.now }
{
    for section in sections {
        if name == section.name.as_str() {
            return true;
        }
    }
    false
}

/// Whether each of the names is that of a section.
fn has_sections(sections: &[Section], names: &[&str]) -> bool
    ensures { result ≡ list_all (is_among (map (λ s. s.name) (map owned sections.now))) (map (λ name. name.now) names.now) }
{
    for name in names {
        if !has_section(sections, name) {
            return false;
        }
    }
    true
}

fn missing_section(view: &RelView) -> Option<ObjectFault>
    ensures { result ≡ missing_section view.now }
{
    if has_sections(view.sections().as_slice(), &FORM) {
        return None;
    }
    Some(ObjectFault::MissingSection {
        offset: view.table(),
    })
}

/// Whether the section's header is the form's, with the name.
fn has_form(name: &str, section: &Section) -> bool
    ensures { result ≡ has_form name.now (owned section.now) }
{
    let named = section.name.as_str() == name;
    let plain = section.kind == SHT_PROGBITS && section.flags == SHF_EXCLUDE;
    let bare = section.link == 0 && section.info == 0 && section.entry_size == 0;
    named && plain && bare
}

/// The first place where the sections have not the form with these names.
fn misplaced(sections: &[Section], names: &[&str]) -> Option<usize>
    ensures value { result ≡ misplaced_from 0 (map (λ name. name.now) names.now) (map owned sections.now) }
    ensures within { IfSome result (λ place. place ≤ length sections.now) }
{
    for place in 0..names.len() {
        if place >= sections.len() {
            return Some(place);
        }
        if !has_form(names[place], &sections[place]) {
            return Some(place);
        }
    }
    if names.len() < sections.len() {
        Some(names.len())
    } else {
        None
    }
}

fn misplaced_section(view: &RelView) -> Option<ObjectFault>
    ensures { result ≡ misplaced_section view.now }
{
    match misplaced(view.sections().as_slice(), &FORM) {
        None => None,
        Some(place) => Some(ObjectFault::BadLayout {
            offset: view.header_of(place),
        }),
    }
}

/// The bytes of the section at a place.
pub fn part<'a>(view: &RelView<'a>, place: usize) -> &'a [u8]
    ensures { result.now ≡ part place view.now }
{
    match view.sections().as_slice().get(place) {
        None => &[],
        Some(section) => section.bytes,
    }
}

fn wrong_version(view: &RelView) -> Option<ObjectFault>
    ensures { result ≡ wrong_version view.now }
{
    if part(view, 0) == [1].as_slice() {
        return None;
    }
    Some(ObjectFault::BadVersion {
        offset: view.offset_of(0),
    })
}

/// The first fault of the sections of a file, which are to be those of an object.
#[tactic(auto, unfolding(crate::specs::Forms::sections_fault))]
pub fn sections_fault(alloc: Global, view: &RelView) -> Result<Option<ObjectFault>, NoMemory>
    ensures { IfOk result (λ fault. fault ≡ sections_fault view.now) }
{
    if let Some(fault) = double_section(alloc, view)? {
        return Ok(Some(fault));
    }
    if let Some(fault) = missing_section(view) {
        return Ok(Some(fault));
    }
    if let Some(fault) = misplaced_section(view) {
        return Ok(Some(fault));
    }
    Ok(wrong_version(view))
}
