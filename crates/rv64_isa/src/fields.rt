//! The six fields of a word (section 2.2). Formats that have no such field put bits of an immediate there (section 2.3).

ghost use Rattle.std.specs.Prelude.{◌≡◌};
ghost use Rattle.rv64_isa.specs.Format.{InFields, word_of_fields, fields_of_word};

/// The fields of a word, from its lowest bit: 7, 5, 3, 5, 5 and 7 bits.
#[derive(Clone, Copy)]
pub struct Fields {
    pub opcode: u8,
    pub rd: u8,
    pub funct3: u8,
    pub rs1: u8,
    pub rs2: u8,
    pub funct7: u8,
}

impl Fields {
    /// The word with these fields.
    pub fn word(self) -> u32
        requires { InFields self }
        ensures { result ≡ word_of_fields self }
    {
        u32::from(self.opcode)
            | u32::from(self.rd) << 7
            | u32::from(self.funct3) << 12
            | u32::from(self.rs1) << 15
            | u32::from(self.rs2) << 20
            | u32::from(self.funct7) << 25
    }

    /// The fields of a word.
    pub fn of_word(word: u32) -> Fields
        ensures { result ≡ fields_of_word word }
    {
        Fields {
            opcode: (word & 0x7f) as u8,
            rd: (word >> 7 & 0x1f) as u8,
            funct3: (word >> 12 & 7) as u8,
            rs1: (word >> 15 & 0x1f) as u8,
            rs2: (word >> 20 & 0x1f) as u8,
            funct7: (word >> 25) as u8,
        }
    }
}
