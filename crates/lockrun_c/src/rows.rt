//! What C describes a floor by: a row for each thread, each lock, each condition variable or channel, and each key. A
//! name has its bytes, and a 0 behind them where they are fewer than 16.

/// A thread: for how many entries its log has room, and its base priority.
#[repr(C)]
#[derive(Clone, Copy)]
pub struct ThreadRow {
    pub name: [u8; 16],
    pub entries: u32,
    pub base: u8,
}

/// A lock: the name of its class, and the number of its kind.
#[repr(C)]
#[derive(Clone, Copy)]
pub struct LockRow {
    pub name: [u8; 16],
    pub class: [u8; 16],
    pub kind: u32,
}

/// A condition variable, or a channel where `is_channel` isn't 0: and its lock.
#[repr(C)]
#[derive(Clone, Copy)]
pub struct ChanRow {
    pub name: [u8; 16],
    pub lock: u32,
    pub is_channel: u32,
}

/// A key of a lock's table.
#[repr(C)]
#[derive(Clone, Copy)]
pub struct KeyRow {
    pub key: u64,
    pub lock: u32,
}
