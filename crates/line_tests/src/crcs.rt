//! Tests of the CRCs against known registers.
use line_rules::{CrcTable, crc_by_bits};

// A byte, and its entries in the tables of Modbus RTU and of DNP3.
const ENTRIES: [(u8, u16, u16); 10] = [
    (0x01, 0xC0C1, 0x365E),
    (0x02, 0xC181, 0x6CBC),
    (0x03, 0x0140, 0x5AE2),
    (0x04, 0xC301, 0xD978),
    (0x08, 0xC601, 0xFF89),
    (0x10, 0xCC01, 0xB26B),
    (0x20, 0xD801, 0x29AF),
    (0x40, 0xF001, 0x535E),
    (0x80, 0xA001, 0xA6BC),
    (0xFF, 0x4040, 0x1235),
];

// Whether the tables have the entries of a row.
fn has_entries(rtu: &CrcTable<0xA001>, dnp: &CrcTable<0xA6BC>, row: (u8, u16, u16)) -> bool {
    let (place, of_rtu, of_dnp) = row;
    rtu.entry(place) == of_rtu && dnp.entry(place) == of_dnp
}

#[test]
fn known_entries(rt: HostRuntime) {
    let (rtu, dnp) = (CrcTable::<0xA001>::new(), CrcTable::<0xA6BC>::new());
    for row in &ENTRIES {
        assert!(rt; has_entries(&rtu, &dnp, *row));
    }
}

// Whether a table makes these registers of these bytes, one by one.
fn makes<const POLY: u16>(start: u16, rows: &[(u8, u16)]) -> bool {
    let table = CrcTable::<POLY>::new();
    let mut register = start;
    for (byte, next) in rows {
        register = table.step(register, *byte);
        if register != *next {
            return false;
        }
    }
    true
}

// A query of Modbus RTU, and the header of a reset in DNP3: each byte, and the register after it.
const RTU_QUERY: [(u8, u16); 6] = [
    (0x01, 0x807E),
    (0x03, 0x2140),
    (0x00, 0xF020),
    (0x00, 0xD8F1),
    (0x00, 0x8419),
    (0x0A, 0xCDC5),
];

const DNP_RESET: [(u8, u16); 8] = [
    (0x05, 0xEF26),
    (0x64, 0x3F0D),
    (0x05, 0xFFB6),
    (0xC0, 0x7DA1),
    (0x01, 0x8F6E),
    (0x00, 0x3033),
    (0x00, 0xC116),
    (0x04, 0xDE16),
];

#[test]
fn known_registers(rt: HostRuntime) {
    assert!(rt; makes::<0xA001>(0xFFFF, &RTU_QUERY));
    assert!(rt; makes::<0xA6BC>(0, &DNP_RESET));
    let by_bits = crc_by_bits::<0xA6BC>(0, b"\x05\x64\x05\xC0\x01\x00\x00\x04");
    assert!(rt; by_bits == 0xDE16);
}
