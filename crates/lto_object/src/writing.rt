//! Writing the object of a module.
ghost use Rattle.std.specs.Prelude.{◌≡◌, map, IfOk};
ghost use Rattle.gimple_ir.specs.Programs.{IsChecked};
ghost use Rattle.lto_object.specs.Objects.{summaries_of, symbols_of, sections_of, object_of};
ghost use Rattle.lto_object.specs.SummaryStream.{summaries_bytes};
ghost use Rattle.lto_object.specs.SymbolStream.{stored_of, symbols_bytes};

use crate::bodies::encode_bodies;
use crate::bounds::is_defined;
use crate::listing::symbols;
use crate::sections::sections;
use crate::summaries::encode_summaries;
use crate::symbols::encode_symbols;
use elf_container::{OwnSection, write_rel};
use func_summary::summarise;
use gimple_ir::{List, Module, NoMemory, Summary};
use module_stream::encode_decls;
use std::alloc::Global;

/// The true summaries, of the functions that have a body, in order.
fn true_summaries(alloc: Global, source: &Module) -> Result<Vec<Summary>, NoMemory>
    requires { IsChecked source.now }
    ensures { IfOk result (λ summaries. summaries.items ≡ summaries_of source.now) }
{
    let mut summaries = Vec::new(alloc);
    for place in 0..source.functions.len() {
        let function = source.functions.get(place);
        if !is_defined(function) {
            continue;
        }
        let summary = summarise(alloc, source, place as u32)?;
        summaries.push(summary)?;
    }
    Ok(summaries)
}

fn summaries_stream(alloc: Global, source: &Module) -> Result<Vec<u8>, NoMemory>
    requires { IsChecked source.now }
    ensures { IfOk result (λ bytes. bytes.items ≡ summaries_bytes (summaries_of source.now)) }
{
    let summaries = true_summaries(alloc, source)?;
    encode_summaries(alloc, summaries.as_slice())
}

fn symbols_stream(alloc: Global, source: &Module) -> Result<Vec<u8>, NoMemory>
    requires { IsChecked source.now }
    ensures { IfOk result (λ bytes. bytes.items ≡ symbols_bytes (map stored_of (symbols_of source.now))) }
{
    let symbols = symbols(alloc, source)?;
    encode_symbols(alloc, symbols.as_slice())
}

#[tactic(auto, unfolding(crate::specs::Objects::sections_of))]
fn sections_of(alloc: Global, source: &Module) -> Result<List<OwnSection>, NoMemory>
    requires { IsChecked source.now }
    ensures { IfOk result (λ sections. sections ≡ sections_of source.now) }
{
    sections(
        alloc,
        encode_decls(alloc, source)?,
        encode_bodies(alloc, source.functions.as_slice())?,
        summaries_stream(alloc, source)?,
        symbols_stream(alloc, source)?,
    )
}

/// The one object of a checked module, as the bytes of a file.
#[tactic(auto, unfolding(crate::specs::Objects::object_of))]
pub fn lgen(alloc: Global, source: &Module) -> Result<Vec<u8>, NoMemory>
    requires { IsChecked source.now }
    ensures { IfOk result (λ bytes. bytes.items ≡ object_of source.now) }
{
    let sections = sections_of(alloc, source)?;
    write_rel(alloc, &sections)
}
