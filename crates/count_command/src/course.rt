use site_config::Config;

/// What a run does besides counting and storing.
#[derive(Clone, Copy)]
pub enum Course {
    /// Nothing else.
    Count,
    /// It shows each held segment to a watcher, and tells what the watcher saw.
    Watch,
}

/// What a run is asked for.
#[derive(Clone, Copy)]
pub struct Asked {
    pub course: Course,
    /// How many workers share the counting, unless the configuration shall say it.
    pub workers: Option<u8>,
}

/// What a run goes by, which stays the same to its end.
#[derive(Drop)]
pub struct Run<'a, R, G> {
    pub rt: &'a R,
    pub gate: &'a G,
    pub config: &'a Config,
    pub course: Course,
    /// How many workers share the counting.
    pub workers: u8,
}
