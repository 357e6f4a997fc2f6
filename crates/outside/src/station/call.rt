/// A call of a station, as it is recorded.
#[derive(Drop)]
pub enum Call {
    /// One that changes nothing: a look at the size, a read, or a call that failed.
    Other,
    /// A write of bytes from a place on.
    Write(u64, Vec<u8>),
    /// A sync.
    Sync,
    /// A line that was told.
    Tell(Vec<u8>),
}
