/// Names the samples `from` up to and without `to` of a gauge.
#[derive(Clone, Copy, Debug, PartialEq, Eq)]
pub struct Name {
    pub gauge: u16,
    pub from: u64,
    pub to: u64,
}
