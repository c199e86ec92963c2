// Where each part of the lower half begins: docs/CELLS.md, "The parts". Offsets are named here alone.
pub const ROWS: usize = 0;

pub const LOW: usize = 32256;

pub const HIGH: usize = 36352;

pub const SEEN: usize = 38400;

pub const CAUGHT: usize = 38912;

pub const STATE: usize = 39040;

pub const USED: usize = 39104;

pub const LAST: usize = 39168;

pub const FIRST: usize = 39296;

pub const COUNT: usize = 39424;

pub const BASE: usize = 39552;

pub const LAYOUT: usize = 39680;

pub const QUEUE: usize = 39744;

pub const OPENED: usize = 39808;

pub const COUNTERS: usize = 39824;

pub const NAMES: usize = 39828;

pub const SINGLE: usize = 40084;

pub const SETTLED: usize = 40085;

pub const STARTED: usize = 40087;

pub const KEPT: usize = 40089;

pub const SIGNATURE: usize = 40952;
