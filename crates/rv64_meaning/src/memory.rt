//! The hart's memory: which bytes lie in a segment, loads and stores.

ghost use Rattle.std.specs.Prelude.{◌≡◌, ℕ, ◌+◌, ◌<◌, ◌≤◌, ◌^◌, IsTrue, nat_le, length, take, drop};
ghost use Rattle.rv64_meaning.specs.Machine.{State, load, store, store_bytes, bytes_from, can_load, can_store, in_text, in_data};
ghost use Rattle.rv64_meaning.specs.View.{segments_of_hart, state_of, InOneSegment};

use crate::bytes::number;
use crate::hart::Hart;

const TEXT_START: u64 = 0x10000;

impl Hart {
    /// n bytes from an address lie in the text.
    pub(crate) fn in_text(&self, a: u64, n: u64) -> bool
        ensures { result ≡ in_text (segments_of_hart self.now) a n }
    {
        let len = self.text.len() as u64;
        TEXT_START <= a && a - TEXT_START <= len && n <= len - (a - TEXT_START)
    }

    /// n bytes from an address lie in the data segment.
    pub(crate) fn in_data(&self, a: u64, n: u64) -> bool
        ensures { result ≡ in_data (segments_of_hart self.now) a n }
    {
        let len = self.data.len() as u64;
        self.data_start <= a && a - self.data_start <= len && n <= len - (a - self.data_start)
    }

    /// The n bytes from an address, which lie in one segment.
    pub fn bytes(&self, a: u64, n: u64) -> &[u8]
        requires { InOneSegment (segments_of_hart self.now) a n }
        ensures { result.now ≡ bytes_from n (state_of self.now).mem a }
    {
        if self.data_start <= a {
            let at = (a - self.data_start) as usize;
            &self.data[at..at + n as usize]
        } else {
            let at = (a - TEXT_START) as usize;
            &self.text[at..at + n as usize]
        }
    }

    /// A load of n bytes does not trap.
    pub(crate) fn can_load(&self, a: u64, n: u64) -> bool
        requires { 0 < n }
        ensures { result ≡ can_load (segments_of_hart self.now) a n }
    {
        a % n == 0 && (self.in_text(a, n) || self.in_data(a, n))
    }

    /// The number in n bytes from an address, least first.
    pub(crate) fn load(&self, a: u64, n: u64) -> u64
        requires small { n ≤ 8 }
        requires inside { IsTrue (can_load (segments_of_hart self.now) a n) }
        ensures { result ≡ load n (state_of self.now).mem a }
    {
        number(self.bytes(a, n))
    }

    /// A store of n bytes does not trap.
    pub(crate) fn can_store(&self, a: u64, n: u64) -> bool
        requires { 0 < n }
        ensures { result ≡ can_store (segments_of_hart self.now) a n }
    {
        a % n == 0 && self.in_data(a, n)
    }

    /// The n lowest bytes of a number, least first.
    pub(crate) fn store(&mut self, a: u64, n: u64, v: u64)
        requires inside { IsTrue (in_data (segments_of_hart self.old) a n) }
        ensures segments { segments_of_hart self.new ≡ segments_of_hart self.old }
        ensures state { state_of self.new ≡ record (state_of self.old) { mem = store n (state_of self.old).mem a v } }
    {
        let mut rest = v;
        for i in 0..n {
            self.data[(a - self.data_start + i) as usize] = (rest % 256) as u8;
            rest /= 256;
        }
    }

    /// How many bytes of the input are left.
    pub(crate) fn left(&self) -> u64
        ensures { result ≡ length (state_of self.now).input }
    {
        self.input.len().saturating_sub(self.read) as u64
    }

    /// The next n bytes of the input, to an address; they are still left.
    fn copy_input(&mut self, a: u64, n: u64)
        requires inside { 0 < n → IsTrue (in_data (segments_of_hart self.old) a n) }
        requires left { n ≤ length (state_of self.old).input }
        ensures segments { segments_of_hart self.new ≡ segments_of_hart self.old }
        ensures state { state_of self.new ≡ record (state_of self.old) {
          mem = store_bytes (take n (state_of self.old).input) (state_of self.old).mem a;
        } }
        ensures read { self.new.read ≡ self.old.read }
        ensures input { self.new.input ≡ self.old.input }
    {
        for i in 0..n {
            let byte = self.input[self.read + i as usize];
            self.data[(a - self.data_start + i) as usize] = byte;
        }
    }

    /// The next n bytes of the input, to an address.
    #[tactic(auto, using(crate::proofs::ByteLaws::dropped))]
    pub(crate) fn take_input(&mut self, a: u64, n: u64)
        requires inside { 0 < n → IsTrue (in_data (segments_of_hart self.old) a n) }
        requires left { n ≤ length (state_of self.old).input }
        ensures segments { segments_of_hart self.new ≡ segments_of_hart self.old }
        ensures state { state_of self.new ≡ record (state_of self.old) {
          mem = store_bytes (take n (state_of self.old).input) (state_of self.old).mem a;
          input = drop n (state_of self.old).input;
        } }
    {
        self.copy_input(a, n);
        self.read += n as usize;
    }
}
