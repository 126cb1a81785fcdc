//! The numbers that calls answer. What each stands for is in specs/Numbers.antt.

pub const DONE: u32 = 0;

pub const NOT_LIVE: u32 = 1;

pub const TOO_MANY: u32 = 2;

pub const NOT_HELD: u32 = 3;

pub const EXISTS: u32 = 4;

pub const UNKNOWN_SYMBOL: u32 = 5;

pub const NEED_NOT_LIVE: u32 = 6;

pub const NOT_LOADING: u32 = 7;

pub const NO_ENTRY: u32 = 8;

pub const NEEDED_BY: u32 = 9;

pub const PERMANENT: u32 = 10;

pub const IN_USE: u32 = 11;

pub const NOT_UNLOADING: u32 = 12;

pub const YES: u32 = 13;

pub const NO: u32 = 14;

pub const ABSENT: u32 = 16;

pub const LOADING: u32 = 17;

pub const LIVE: u32 = 18;

pub const DRAINING: u32 = 19;

pub const UNLOADING: u32 = 20;

pub const BAD_LINE: u32 = 24;

pub const DUPLICATE: u32 = 25;

pub const TWICE_EXPORTED: u32 = 26;

pub const TOO_MANY_MODULES: u32 = 27;

pub const OUT_OF_MEMORY: u32 = 28;

pub const BUSY: u32 = 32;

pub const OUT_OF_RANGE: u32 = 33;

pub const UNKNOWN_NAME: u32 = 34;

pub const TOO_SHORT: u32 = 35;

pub const TOO_MANY_LEAVES: u32 = 36;
