//! What each instruction does to the hart.

ghost use Rattle.std.specs.Prelude.{◌≡◌, ℕ, ◌+◌, ◌<◌, ◌≤◌, ◌^◌, IfSome, IsTrue, length, if◌then◌else◌};
ghost use Rattle.std.specs.Option.{ForSome};
ghost use Rattle.rv64_isa.specs.Words.{InRange};
ghost use Rattle.rv64_meaning.specs.Machine.{Go, Trap, State, read_reg, put, jump, branch, load_to, store_from, read_input, write_output, service, effect, fetch, step};
ghost use Rattle.rv64_meaning.specs.Arithmetic.{sign_extended, of_word};
ghost use Rattle.rv64_meaning.specs.View.{segments_of_hart, state_of, Does};
ghost use Rattle.rv64_meaning.specs.Standings.{output_by};

use crate::arithmetic::*;
use crate::bytes::word;
use crate::event::Event;
use crate::hart::Hart;
use rv64_isa::{Instr, decode};

impl Hart {
    /// Register `x` of a number: 0 is 0.
    pub(crate) fn x(&self, r: u8) -> u64
        requires { r < 32 }
        ensures { result ≡ read_reg (state_of self.now) r }
    {
        if r == 0 {
            0
        } else {
            self.registers[r as usize]
        }
    }

    // A register set, and on to the next word.
    fn set(&mut self, rd: u8, v: u64) -> Event
        requires rd { rd < 32 }
        requires pc { self.old.pc + 4 < 2 ^ 64 }
        ensures { Does (Go (put (state_of self.old) rd v)) result self.old self.new }
    {
        self.registers[rd as usize] = v;
        self.pc += 4;
        Event::Quiet
    }

    fn jump(&mut self, rd: u8, to: u64) -> Event
        requires rd { rd < 32 }
        requires pc { self.old.pc + 4 < 2 ^ 64 }
        ensures { Does (jump (state_of self.old) rd to) result self.old self.new }
    {
        self.registers[rd as usize] = self.pc + 4;
        self.pc = to;
        Event::Quiet
    }

    fn branch(&mut self, taken: bool, to: u64) -> Event
        requires pc { self.old.pc + 4 < 2 ^ 64 }
        ensures { Does (branch (state_of self.old) taken to) result self.old self.new }
    {
        if taken {
            self.pc = to;
        } else {
            self.pc += 4;
        }
        Event::Quiet
    }

    fn trap(&self) -> Event
        ensures { Does Trap result self.now self.now }
    {
        Event::Trapped { address: self.pc }
    }

    fn load_byte(&mut self, rd: u8, a: u64) -> Event
        requires rd { rd < 32 }
        requires pc { self.old.pc + 4 < 2 ^ 64 }
        ensures { Does (load_to (segments_of_hart self.old) (state_of self.old) rd 1 a (sign_extended (2 ^ 8))) result self.old self.new }
    {
        if self.can_load(a, 1) {
            let v = of_byte(self.load(a, 1));
            self.set(rd, v)
        } else {
            self.trap()
        }
    }

    fn load_half(&mut self, rd: u8, a: u64) -> Event
        requires rd { rd < 32 }
        requires pc { self.old.pc + 4 < 2 ^ 64 }
        ensures { Does (load_to (segments_of_hart self.old) (state_of self.old) rd 2 a (sign_extended (2 ^ 16))) result self.old self.new }
    {
        if self.can_load(a, 2) {
            let v = of_half(self.load(a, 2));
            self.set(rd, v)
        } else {
            self.trap()
        }
    }

    fn load_word(&mut self, rd: u8, a: u64) -> Event
        requires rd { rd < 32 }
        requires pc { self.old.pc + 4 < 2 ^ 64 }
        ensures { Does (load_to (segments_of_hart self.old) (state_of self.old) rd 4 a of_word) result self.old self.new }
    {
        if self.can_load(a, 4) {
            let v = of_word(self.load(a, 4));
            self.set(rd, v)
        } else {
            self.trap()
        }
    }

    fn load_plain(&mut self, rd: u8, a: u64, n: u64) -> Event
        requires rd { rd < 32 }
        requires some { 0 < n }
        requires small { n ≤ 8 }
        requires pc { self.old.pc + 4 < 2 ^ 64 }
        ensures { Does (load_to (segments_of_hart self.old) (state_of self.old) rd n a (λ v. v)) result self.old self.new }
    {
        if self.can_load(a, n) {
            let v = self.load(a, n);
            self.set(rd, v)
        } else {
            self.trap()
        }
    }

    fn store_from(&mut self, n: u64, a: u64, v: u64) -> Event
        requires some { 0 < n }
        requires pc { self.old.pc + 4 < 2 ^ 64 }
        ensures { Does (store_from (segments_of_hart self.old) (state_of self.old) n a v) result self.old self.new }
    {
        if self.can_store(a, n) {
            self.store(a, n, v);
            self.pc += 4;
            Event::Quiet
        } else {
            self.trap()
        }
    }

    fn read_input(&mut self, a: u64, n: u64) -> Event
        requires left { n ≤ length (state_of self.old).input }
        requires pc { self.old.pc + 4 < 2 ^ 64 }
        ensures { Does (read_input (segments_of_hart self.old) (state_of self.old) a n) result self.old self.new }
    {
        if n == 0 || self.in_data(a, n) {
            self.take_input(a, n);
            self.set(10, n)
        } else {
            self.trap()
        }
    }

    #[tactic(auto, unfolding(crate::specs::Machine::bytes_from))]
    fn write_output(&mut self, a: u64, n: u64) -> Event
        requires pc { self.old.pc + 4 < 2 ^ 64 }
        ensures { Does (write_output (segments_of_hart self.old) (state_of self.old) a n) result self.old self.new }
    {
        if n == 0 {
            self.set(10, n)
        } else if self.in_text(a, n) || self.in_data(a, n) {
            self.registers[10] = n;
            self.pc += 4;
            Event::Wrote {
                address: a,
                length: n,
            }
        } else {
            self.trap()
        }
    }

    fn service(&mut self) -> Event
        requires pc { self.old.pc + 4 < 2 ^ 64 }
        ensures { Does (service (segments_of_hart self.old) (state_of self.old)) result self.old self.new }
    {
        let (a0, a1, a2) = (self.x(10), self.x(11), self.x(12));
        let a7 = self.x(17);
        if a7 == 63 && a0 == 0 {
            let n = a2.min(self.left());
            self.read_input(a1, n)
        } else if a7 == 64 && a0 == 1 {
            self.write_output(a1, a2)
        } else if a7 == 93 {
            Event::Ended((a0 % 256) as u8)
        } else {
            self.trap()
        }
    }

    // What an instruction does.
    fn act(&mut self, instr: Instr) -> Event
        requires in_range { InRange instr }
        requires pc { self.old.pc + 4 < 2 ^ 64 }
        ensures { Does (effect (segments_of_hart self.old) instr (state_of self.old)) result self.old self.new }
    {
        match instr {
            Instr::Lui { rd, imm } => self.set(rd, upper(imm)),
            Instr::Auipc { rd, imm } => self.set(rd, add(self.pc, upper(imm))),
            Instr::Jal { rd, imm } => self.jump(rd, plus(self.pc, imm)),
            Instr::Jalr { rd, rs1, imm } => self.jump(rd, plus(self.x(rs1), imm) & !1),
            Instr::Beq { rs1, rs2, imm } => {
                let (taken, to) = (self.x(rs1) == self.x(rs2), plus(self.pc, imm));
                self.branch(taken, to)
            }
            Instr::Bne { rs1, rs2, imm } => {
                let (taken, to) = (self.x(rs1) != self.x(rs2), plus(self.pc, imm));
                self.branch(taken, to)
            }
            Instr::Blt { rs1, rs2, imm } => {
                let (taken, to) = (less_signed(self.x(rs1), self.x(rs2)), plus(self.pc, imm));
                self.branch(taken, to)
            }
            Instr::Bge { rs1, rs2, imm } => {
                let (taken, to) = (!less_signed(self.x(rs1), self.x(rs2)), plus(self.pc, imm));
                self.branch(taken, to)
            }
            Instr::Bltu { rs1, rs2, imm } => {
                let (taken, to) = (self.x(rs1) < self.x(rs2), plus(self.pc, imm));
                self.branch(taken, to)
            }
            Instr::Bgeu { rs1, rs2, imm } => {
                let (taken, to) = (self.x(rs1) >= self.x(rs2), plus(self.pc, imm));
                self.branch(taken, to)
            }
            Instr::Lb { rd, rs1, imm } => self.load_byte(rd, plus(self.x(rs1), imm)),
            Instr::Lh { rd, rs1, imm } => self.load_half(rd, plus(self.x(rs1), imm)),
            Instr::Lw { rd, rs1, imm } => self.load_word(rd, plus(self.x(rs1), imm)),
            Instr::Ld { rd, rs1, imm } => self.load_plain(rd, plus(self.x(rs1), imm), 8),
            Instr::Lbu { rd, rs1, imm } => self.load_plain(rd, plus(self.x(rs1), imm), 1),
            Instr::Lhu { rd, rs1, imm } => self.load_plain(rd, plus(self.x(rs1), imm), 2),
            Instr::Lwu { rd, rs1, imm } => self.load_plain(rd, plus(self.x(rs1), imm), 4),
            Instr::Sb { rs1, rs2, imm } => {
                let (a, v) = (plus(self.x(rs1), imm), self.x(rs2));
                self.store_from(1, a, v)
            }
            Instr::Sh { rs1, rs2, imm } => {
                let (a, v) = (plus(self.x(rs1), imm), self.x(rs2));
                self.store_from(2, a, v)
            }
            Instr::Sw { rs1, rs2, imm } => {
                let (a, v) = (plus(self.x(rs1), imm), self.x(rs2));
                self.store_from(4, a, v)
            }
            Instr::Sd { rs1, rs2, imm } => {
                let (a, v) = (plus(self.x(rs1), imm), self.x(rs2));
                self.store_from(8, a, v)
            }
            Instr::Addi { rd, rs1, imm } => self.set(rd, plus(self.x(rs1), imm)),
            Instr::Slti { rd, rs1, imm } => self.set(
                rd,
                u64::from(less_signed(self.x(rs1), bits(imm))),
            ),
            Instr::Sltiu { rd, rs1, imm } => self.set(rd, u64::from(self.x(rs1) < bits(imm))),
            Instr::Xori { rd, rs1, imm } => self.set(rd, self.x(rs1) ^ bits(imm)),
            Instr::Ori { rd, rs1, imm } => self.set(rd, self.x(rs1) | bits(imm)),
            Instr::Andi { rd, rs1, imm } => self.set(rd, self.x(rs1) & bits(imm)),
            Instr::Slli { rd, rs1, imm } => self.set(rd, sll(self.x(rs1), bits(imm))),
            Instr::Srli { rd, rs1, imm } => self.set(rd, srl(self.x(rs1), bits(imm))),
            Instr::Srai { rd, rs1, imm } => self.set(rd, sra(self.x(rs1), bits(imm))),
            Instr::Addiw { rd, rs1, imm } => self.set(rd, of_word(plus(self.x(rs1), imm))),
            Instr::Slliw { rd, rs1, imm } => self.set(rd, sllw(self.x(rs1), bits(imm))),
            Instr::Srliw { rd, rs1, imm } => self.set(rd, srlw(self.x(rs1), bits(imm))),
            Instr::Sraiw { rd, rs1, imm } => self.set(rd, sraw(self.x(rs1), bits(imm))),
            Instr::Add { rd, rs1, rs2 } => self.set(rd, add(self.x(rs1), self.x(rs2))),
            Instr::Sll { rd, rs1, rs2 } => self.set(rd, sll(self.x(rs1), self.x(rs2))),
            Instr::Slt { rd, rs1, rs2 } => self.set(
                rd,
                u64::from(less_signed(self.x(rs1), self.x(rs2))),
            ),
            Instr::Sltu { rd, rs1, rs2 } => self.set(rd, u64::from(self.x(rs1) < self.x(rs2))),
            Instr::Xor { rd, rs1, rs2 } => self.set(rd, self.x(rs1) ^ self.x(rs2)),
            Instr::Srl { rd, rs1, rs2 } => self.set(rd, srl(self.x(rs1), self.x(rs2))),
            Instr::Or { rd, rs1, rs2 } => self.set(rd, self.x(rs1) | self.x(rs2)),
            Instr::And { rd, rs1, rs2 } => self.set(rd, self.x(rs1) & self.x(rs2)),
            Instr::Sub { rd, rs1, rs2 } => self.set(rd, sub(self.x(rs1), self.x(rs2))),
            Instr::Sra { rd, rs1, rs2 } => self.set(rd, sra(self.x(rs1), self.x(rs2))),
            Instr::Mul { rd, rs1, rs2 } => self.set(rd, mul(self.x(rs1), self.x(rs2))),
            Instr::Mulh { rd, rs1, rs2 } => self.set(rd, mulh(self.x(rs1), self.x(rs2))),
            Instr::Mulhsu { rd, rs1, rs2 } => self.set(rd, mulhsu(self.x(rs1), self.x(rs2))),
            Instr::Mulhu { rd, rs1, rs2 } => self.set(rd, mulhu(self.x(rs1), self.x(rs2))),
            Instr::Div { rd, rs1, rs2 } => self.set(rd, div(self.x(rs1), self.x(rs2))),
            Instr::Divu { rd, rs1, rs2 } => self.set(rd, divu(self.x(rs1), self.x(rs2))),
            Instr::Rem { rd, rs1, rs2 } => self.set(rd, rem(self.x(rs1), self.x(rs2))),
            Instr::Remu { rd, rs1, rs2 } => self.set(rd, remu(self.x(rs1), self.x(rs2))),
            Instr::Addw { rd, rs1, rs2 } => self.set(rd, of_word(add(self.x(rs1), self.x(rs2)))),
            Instr::Sllw { rd, rs1, rs2 } => self.set(rd, sllw(self.x(rs1), self.x(rs2))),
            Instr::Srlw { rd, rs1, rs2 } => self.set(rd, srlw(self.x(rs1), self.x(rs2))),
            Instr::Subw { rd, rs1, rs2 } => self.set(rd, of_word(sub(self.x(rs1), self.x(rs2)))),
            Instr::Sraw { rd, rs1, rs2 } => self.set(rd, sraw(self.x(rs1), self.x(rs2))),
            Instr::Mulw { rd, rs1, rs2 } => self.set(rd, of_word(mul(self.x(rs1), self.x(rs2)))),
            Instr::Divw { rd, rs1, rs2 } => self.set(rd, divw(self.x(rs1), self.x(rs2))),
            Instr::Divuw { rd, rs1, rs2 } => self.set(rd, divuw(self.x(rs1), self.x(rs2))),
            Instr::Remw { rd, rs1, rs2 } => self.set(rd, remw(self.x(rs1), self.x(rs2))),
            Instr::Remuw { rd, rs1, rs2 } => self.set(rd, remuw(self.x(rs1), self.x(rs2))),
            Instr::Ecall => self.service(),
        }
    }

    /// The instruction at the program counter, if the text has one there.
    pub(crate) fn fetch(&self) -> Option<Instr>
        ensures value { result ≡ fetch (segments_of_hart self.now) self.now.pc }
        ensures found { IfSome result (λ i. InRange i) }
        ensures pc { IfSome result (λ i. self.now.pc + 4 < 2 ^ 64) }
    {
        if self.pc % 4 == 0 && self.in_text(self.pc, 4) {
            let at = (self.pc - 0x10000) as usize;
            decode(word(&self.text[at..at + 4]))
        } else {
            None
        }
    }

    /// What the machine does with what was fetched: an instruction, or a trap. At an end or a trap nothing changes.
    pub(crate) fn perform(&mut self, fetched: Option<Instr>) -> Event
        requires in_range { ForSome fetched (λ i. InRange i) }
        requires pc { ForSome fetched (λ i. self.old.pc + 4 < 2 ^ 64) }
        ensures { Does (step (segments_of_hart self.old) fetched (state_of self.old)) result self.old self.new }
    {
        match fetched {
            Some(instr) => self.act(instr),
            None => self.trap(),
        }
    }

    // The bytes that the program asks to be written, if they lie in one segment.
    #[tactic(auto, unfolding(crate::specs::Machine::bytes_from))]
    fn asked(&self) -> &[u8]
        ensures { result.now ≡ output_by (write_output (segments_of_hart self.now) (state_of self.now) (read_reg (state_of self.now) 11) (read_reg (state_of self.now) 12)) }
    {
        let (a1, a2) = (self.x(11), self.x(12));
        if a2 == 0 {
            &[]
        } else if self.in_text(a1, a2) || self.in_data(a1, a2) {
            self.bytes(a1, a2)
        } else {
            &[]
        }
    }

    /// The bytes that the machine writes with what was fetched.
    pub(crate) fn writes(&self, fetched: Option<Instr>) -> &[u8]
        ensures { result.now ≡ output_by (step (segments_of_hart self.now) fetched (state_of self.now)) }
    {
        match fetched {
            Some(Instr::Ecall) if self.x(17) == 64 && self.x(10) == 1 => self.asked(),
            _ => &[],
        }
    }
}
