// Four type bytes as one big-endian number: the grouping types of ISO/IEC 14496-12, 10.
pub const ROLL: u32 = 0x726f_6c6c;

pub const PROL: u32 = 0x7072_6f6c;

pub const RAP: u32 = 0x7261_7020;

pub const TELE: u32 = 0x7465_6c65;

pub const SAP: u32 = 0x7361_7020;

pub const RASH: u32 = 0x7261_7368;

pub const ALST: u32 = 0x616c_7374;
