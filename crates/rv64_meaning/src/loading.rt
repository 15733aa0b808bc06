//! From the bytes of an image to the hart at its start, or to the image's first fault. `specs/Loading.antt` has the form.

ghost use Rattle.std.specs.Prelude.{◌≡◌, ◌+◌, ◌-◌, ◌<◌, ◌≤◌, ◌^◌, None, IsTrue, IfOk, IfNone, map, length, take, drop, replicate, not, ◌==◌};
ghost use Rattle.std.specs.List.{list_all, position};
ghost use Rattle.rv64_meaning.specs.Loading.{number_at, text_size, stored_size, data_size, data_start, data_offset, file_size, first_wrong, identification, file_header, text_header, data_header, header_fault_of, first_nonzero, padding_fault_of, length_fault_of, load_fault_of, text_of, data_of, segments_of, start_of};
ghost use Rattle.rv64_meaning.specs.LoadingCode.{is_field, fits_header, HasText, HasSizes};
ghost use Rattle.rv64_meaning.specs.View.{segments_of_hart, state_of};

use crate::bytes::number;
use crate::hart::Hart;
use std::alloc::{AllocError, Global};

// The two program headers end here.
const HEADER: usize = 176;

// Where the text stands in the file and in memory.
const TEXT_OFFSET: usize = 0x1000;

const TEXT_START: u64 = 0x10000;

const PAGE: u64 = 0x1000;

const MOST_TEXT: u64 = 1 << 27;

const MOST_DATA: u64 = 1 << 28;

// A field of the header by its offset, its width in bytes, and its number.
type Field = (usize, usize, u64);

// The sixteen bytes of identification, then type, machine, version, entry, phoff, shoff, flags, ehsize, phentsize, phnum,
// shentsize, shnum and shstrndx.
const FILE_HEADER: [Field; 29] = [
    (0, 1, 0x7f),
    (1, 1, 0x45),
    (2, 1, 0x4c),
    (3, 1, 0x46),
    (4, 1, 2),
    (5, 1, 1),
    (6, 1, 1),
    (7, 1, 0),
    (8, 1, 0),
    (9, 1, 0),
    (10, 1, 0),
    (11, 1, 0),
    (12, 1, 0),
    (13, 1, 0),
    (14, 1, 0),
    (15, 1, 0),
    (16, 2, 2),
    (18, 2, 243),
    (20, 4, 1),
    (24, 8, 0x10000),
    (32, 8, 64),
    (40, 8, 0),
    (48, 4, 0),
    (52, 2, 64),
    (54, 2, 56),
    (56, 2, 2),
    (58, 2, 0),
    (60, 2, 0),
    (62, 2, 0),
];

// Type, flags, offset, vaddr and paddr of the text.
const TEXT_HEADER: [Field; 5] = [
    (64, 4, 1),
    (68, 4, 5),
    (72, 8, 0x1000),
    (80, 8, 0x10000),
    (88, 8, 0x10000),
];

// The number in a field of the image.
fn number_at(image: &[u8], at: usize, width: usize) -> u64
    requires inside { at + width ≤ length image.now }
    requires small { width ≤ 8 }
    ensures { result ≡ number_at image.now at width }
{
    number(&image[at..at + width])
}

// The offset of the first of these fields that has another number.
fn first_wrong(image: &[u8], fields: &[Field]) -> Option<u64>
    requires long { 176 ≤ length image.now }
    requires inside { IsTrue (list_all fits_header fields.now) }
    ensures { result ≡ first_wrong (map (is_field image.now) fields.now) }
{
    for (at, width, value) in fields {
        if number_at(image, *at, *width) != *value {
            return Some(*at as u64);
        }
    }
    None
}

fn text_size(image: &[u8]) -> u64
    requires { 176 ≤ length image.now }
    ensures { result ≡ text_size image.now }
{
    number_at(image, 96, 8)
}

fn stored_size(image: &[u8]) -> u64
    requires { 176 ≤ length image.now }
    ensures { result ≡ stored_size image.now }
{
    number_at(image, 152, 8)
}

fn data_size(image: &[u8]) -> u64
    requires { 176 ≤ length image.now }
    ensures { result ≡ data_size image.now }
{
    number_at(image, 160, 8)
}

fn data_start(image: &[u8]) -> u64
    requires { HasText image.now }
    ensures { result ≡ data_start image.now }
{
    TEXT_START + text_size(image).div_ceil(PAGE) * PAGE
}

fn data_offset(image: &[u8]) -> usize
    requires { HasText image.now }
    ensures { result ≡ data_offset image.now }
{
    (data_start(image) - 0xf000) as usize
}

fn file_size(image: &[u8]) -> usize
    requires { HasSizes image.now }
    ensures { result ≡ file_size image.now }
{
    data_offset(image) + stored_size(image) as usize
}

fn text_fault(image: &[u8]) -> Option<u64>
    requires { 176 ≤ length image.now }
    ensures value { result ≡ first_wrong (text_header image.now) }
    ensures sized { IfNone result (HasText image.now) }
{
    let size = text_size(image);
    if let Some(at) = first_wrong(image, &TEXT_HEADER) {
        Some(at)
    } else if size % 4 == 0 && 4 <= size && size <= MOST_TEXT {
        first_wrong(image, &[(104, 8, size), (112, 8, PAGE)])
    } else {
        Some(96)
    }
}

fn data_fault(image: &[u8]) -> Option<u64>
    requires { HasText image.now }
    ensures value { result ≡ first_wrong (data_header image.now) }
    ensures sized { IfNone result (HasSizes image.now) }
{
    let (offset, start) = (data_offset(image) as u64, data_start(image));
    let size = data_size(image);
    if let Some(at) = first_wrong(
        image,
        &[
            (120, 4, 1),
            (124, 4, 6),
            (128, 8, offset),
            (136, 8, start),
            (144, 8, start),
        ],
    ) {
        Some(at)
    } else if stored_size(image) <= size && size <= MOST_DATA {
        first_wrong(image, &[(168, 8, PAGE)])
    } else {
        Some(160)
    }
}

fn header_fault(image: &[u8]) -> Option<u64>
    requires { 176 ≤ length image.now }
    ensures value { result ≡ header_fault_of image.now }
    ensures sized { IfNone result (HasSizes image.now) }
{
    if let Some(at) = first_wrong(image, &FILE_HEADER) {
        Some(at)
    } else if let Some(at) = text_fault(image) {
        Some(at)
    } else {
        data_fault(image)
    }
}

fn nonzero(bytes: &[u8]) -> Option<usize>
    ensures { result ≡ position (λ byte. not (byte == 0)) bytes.now }
{
    bytes.iter().position(|byte| *byte != 0)
}

// The first byte of a stretch that is present and not 0.
fn first_nonzero(image: &[u8], from: usize, to: usize) -> Option<u64>
    requires { from ≤ to }
    ensures { result ≡ first_nonzero image.now from to }
{
    let (begin, end) = (from.min(image.len()), to.min(image.len()));
    match nonzero(&image[begin..end]) {
        Some(place) => Some((begin + place) as u64),
        None => None,
    }
}

fn padding_fault(image: &[u8]) -> Option<u64>
    requires { HasSizes image.now }
    ensures { result ≡ padding_fault_of image.now }
{
    let text_end = TEXT_OFFSET + text_size(image) as usize;
    let after_text = first_nonzero(image, text_end, data_offset(image));
    first_nonzero(image, HEADER, TEXT_OFFSET).or(after_text)
}

fn length_fault(image: &[u8]) -> Option<u64>
    requires { HasSizes image.now }
    ensures { result ≡ length_fault_of image.now }
{
    let (found, right) = (image.len(), file_size(image));
    if found < right {
        Some(found as u64)
    } else if right < found {
        Some(right as u64)
    } else {
        None
    }
}

/// The offset of the first fault of an image.
pub fn first_fault(image: &[u8]) -> Option<u64>
    ensures value { result ≡ load_fault_of image.now }
    ensures sized { IfNone result (HasSizes image.now × (length image.now ≡ file_size image.now)) }
{
    if image.len() < HEADER {
        Some(image.len() as u64)
    } else if let Some(at) = header_fault(image) {
        Some(at)
    } else if let Some(at) = padding_fault(image) {
        Some(at)
    } else {
        length_fault(image)
    }
}

fn data_of(alloc: Global, image: &[u8]) -> Result<Vec<u8>, AllocError>
    requires sized { HasSizes image.now }
    requires whole { length image.now ≡ file_size image.now }
    ensures { IfOk result (λ bytes. bytes.items ≡ data_of image.now) }
{
    let size = data_size(image) as usize;
    let mut bytes = Vec::with_capacity(alloc, size)?;
    bytes.extend_from_slice(&image[data_offset(image)..])?;
    bytes.resize(size, 0)?;
    Ok(bytes)
}

/// The hart at the start of an image that has no fault.
pub fn start(image: &[u8], input: Vec<u8>) -> Result<Hart, AllocError>
    requires sized { HasSizes image.now }
    requires whole { length image.now ≡ file_size image.now }
    ensures segments { IfOk result (λ hart. segments_of_hart hart ≡ segments_of image.now) }
    ensures state { IfOk result (λ hart. state_of hart ≡ start_of image.now input.items) }
{
    let alloc = *input.allocator();
    let text_end = TEXT_OFFSET + text_size(image) as usize;
    let text = Vec::from_slice(alloc, &image[TEXT_OFFSET..text_end])?;
    let data = data_of(alloc, image)?;
    Ok(Hart {
        text,
        data,
        data_start: data_start(image),
        registers: [0; 32],
        pc: TEXT_START,
        input,
        read: 0,
    })
}
