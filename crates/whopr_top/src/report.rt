// What a command prints: all of it in one put.
ghost use Rattle.std.specs.Prelude.{◌≡◌, ◌⊎◌, []};
ghost use Rattle.whopr_top.specs.Answers.{after_fault, WasPut, Puts};
ghost use Rattle.whopr_top.specs.Refusal.{status_of, refusal_line, Reports, Tells};

use crate::refusal::{Refusal, refusal_line};
use outer_files::{Sink, WriteFault};
use std::alloc::Global;

// Puts a piece, whatever comes of it.
fn try_put<K: Sink>(bytes: &[u8], out: &mut K)
    ensures { WasPut bytes.now (K.known out.old) (K.known out.new) }
{
    let _ = out.put(bytes);
}

fn after_fault(status: u8) -> u8
    ensures { result ≡ after_fault status }
{
    if status == 0 { 6 } else { status }
}

/// Prints a text in one put, and answers this status. Where the sink fails, the line for that is put once.
pub fn print<K: Sink>(text: &[u8], status: u8, out: &mut K) -> u8
    ensures status { (result ≡ status) ⊎ (result ≡ after_fault status) ⊎ (result ≡ 7) }
    ensures printed { Puts text.now status result (K.known out.old) (K.known out.new) }
{
    match out.put(text) {
        Ok(()) => status,
        Err(WriteFault::Failed) => {
            try_put(b"6 write -\n", out);
            after_fault(status)
        }
        Err(WriteFault::NoMemory) => 7,
    }
}

/// Prints the line of a refusal, and answers its status.
pub fn report<K: Sink>(alloc: Global, refusal: Refusal<'_>, out: &mut K) -> u8
    ensures status { (result ≡ status_of refusal.entry) ⊎ (result ≡ 7) }
    ensures printed { Reports (refusal_line refusal.entry) (status_of refusal.entry) result (K.known out.old) (K.known out.new) }
{
    let status = refusal.status();
    match refusal_line(alloc, refusal) {
        Ok(line) => print(line.as_bytes(), status, out),
        Err(_) => print(b"7 memory\n", 7, out),
    }
}

/// Prints the text of a command that was done, and answers 0. An empty text is not put.
pub fn tell<K: Sink>(text: &[u8], out: &mut K) -> u8
    ensures status { (result ≡ 0) ⊎ (result ≡ 6) ⊎ (result ≡ 7) }
    ensures silent { text.now ≡ [] → (result ≡ 0) × (out.new ≡ out.old) }
    ensures printed { Tells text.now result (K.known out.old) (K.known out.new) }
{
    if text.is_empty() {
        return 0;
    }
    print(text, 0, out)
}
