// Class of MS (EN 300 392-2, clause 16.10.5): 24 bits, top bit first.
ghost use Rattle.std.specs.Prelude.{◌≡◌};
ghost use Rattle.bits.specs.Placed.{at, as_read};
ghost use Rattle.elements.specs.Numbers.{type2};
ghost use Rattle.elements.specs.ClassOfMs.{class_of, class_fields, class_widths, no_class, class_option, class_of_ms_element};
ghost use Rattle.elements.specs.ClassOfMs.{split};

use bits::bitbuffer::{Cursor, Read};

#[repr(C)]
#[derive(Clone, Copy)]
pub struct ClassOfMs {
    pub freq_simplex_duplex: u8,
    pub multislot_phase_mod: u8,
    pub concurrent_multicarrier: u8,
    pub voice: u8,
    pub e2e_encryption_not_supported: u8,
    pub circuit_mode_data: u8,
    pub tetra_packet_data: u8,
    pub fast_switching: u8,
    pub dck_encryption: u8,
    pub clch_needed: u8,
    pub concurrent_circuit_mode: u8,
    pub original_advanced_link: u8,
    pub minimum_mode: u8,
    pub carrier_specific_signalling: u8,
    pub authentication: u8,
    pub sck_encryption: u8,
    pub air_interface_version: u8,
    pub common_scch: u8,
    pub reserved_21: u8,
    pub mac_d_blck: u8,
    pub extended_advanced_link: u8,
    pub d8psk: u8,
}

impl ClassOfMs {
    // Its fields in order.
    pub fn fields(self) -> [u8; 22]
        ensures { result ≡ class_fields self }
    {
        [
            self.freq_simplex_duplex,
            self.multislot_phase_mod,
            self.concurrent_multicarrier,
            self.voice,
            self.e2e_encryption_not_supported,
            self.circuit_mode_data,
            self.tetra_packet_data,
            self.fast_switching,
            self.dck_encryption,
            self.clch_needed,
            self.concurrent_circuit_mode,
            self.original_advanced_link,
            self.minimum_mode,
            self.carrier_specific_signalling,
            self.authentication,
            self.sck_encryption,
            self.air_interface_version,
            self.common_scch,
            self.reserved_21,
            self.mac_d_blck,
            self.extended_advanced_link,
            self.d8psk,
        ]
    }
}

#[repr(C)]
#[derive(Clone, Copy)]
pub struct OptionalClassOfMs {
    pub present: bool,
    pub value: ClassOfMs,
}

// The fields of a 24-bit word.
fn fields(word: u32) -> ClassOfMs
    ensures { result ≡ class_of (split class_widths word) }
{
    ClassOfMs {
        freq_simplex_duplex: (word / 0x80_0000 % 2) as u8,
        multislot_phase_mod: (word / 0x40_0000 % 2) as u8,
        concurrent_multicarrier: (word / 0x20_0000 % 2) as u8,
        voice: (word / 0x10_0000 % 2) as u8,
        e2e_encryption_not_supported: (word / 0x8_0000 % 2) as u8,
        circuit_mode_data: (word / 0x4_0000 % 2) as u8,
        tetra_packet_data: (word / 0x2_0000 % 2) as u8,
        fast_switching: (word / 0x1_0000 % 2) as u8,
        dck_encryption: (word / 0x8000 % 2) as u8,
        clch_needed: (word / 0x4000 % 2) as u8,
        concurrent_circuit_mode: (word / 0x2000 % 2) as u8,
        original_advanced_link: (word / 0x1000 % 2) as u8,
        minimum_mode: (word / 0x800 % 2) as u8,
        carrier_specific_signalling: (word / 0x400 % 2) as u8,
        authentication: (word / 0x200 % 2) as u8,
        sck_encryption: (word / 0x100 % 2) as u8,
        air_interface_version: (word / 0x20 % 8) as u8,
        common_scch: (word / 0x10 % 2) as u8,
        reserved_21: (word / 8 % 2) as u8,
        mac_d_blck: (word / 4 % 2) as u8,
        extended_advanced_link: (word / 2 % 2) as u8,
        d8psk: (word % 2) as u8,
    }
}

const ABSENT: ClassOfMs = ClassOfMs {
    freq_simplex_duplex: 0,
    multislot_phase_mod: 0,
    concurrent_multicarrier: 0,
    voice: 0,
    e2e_encryption_not_supported: 0,
    circuit_mode_data: 0,
    tetra_packet_data: 0,
    fast_switching: 0,
    dck_encryption: 0,
    clch_needed: 0,
    concurrent_circuit_mode: 0,
    original_advanced_link: 0,
    minimum_mode: 0,
    carrier_specific_signalling: 0,
    authentication: 0,
    sck_encryption: 0,
    air_interface_version: 0,
    common_scch: 0,
    reserved_21: 0,
    mac_d_blck: 0,
    extended_advanced_link: 0,
    d8psk: 0,
};

pub fn no_class_of_ms() -> ClassOfMs
    ensures { result ≡ no_class }
{
    ABSENT
}

impl From<Option<ClassOfMs>> for OptionalClassOfMs {
    ghost from_gives = { λ o r. r ≡ class_option o };

    fn from(o: Option<ClassOfMs>) -> OptionalClassOfMs {
        OptionalClassOfMs {
            present: o.is_some(),
            value: o.unwrap_or(ABSENT),
        }
    }
}

// A type 2 element: P-bit, then the class of MS if it is 1.
pub fn parse_type2_class_of_ms(c: Cursor, octets: &[u8]) -> Read<Option<ClassOfMs>>
    ensures { as_read result ≡ at (type2 class_of_ms_element) octets.now c }
{
    let (p, c1) = c.read::<u8>(octets, 1)?;
    if p == 1 {
        let (word, c2) = c1.read::<u32>(octets, 24)?;
        return Ok((Some(fields(word)), c2));
    }
    Ok((None, c1))
}
