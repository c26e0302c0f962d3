// What the writer and the reader of polygons share.
#![tactic(auto)]

// The bytes that every polygon of one ring begins with: byte order 1, type 3 and ring count 1, the lowest byte first.
pub const PREFIX: [u8; 9] = *b"\x01\x03\x00\x00\x00\x01\x00\x00\x00";

// Millimetres in a panel's side.
pub const SIDE: u16 = 600;
