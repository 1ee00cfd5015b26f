//! What a certificate says beside a leaf's own numbers.

/// The certificate of a leaf's series: what beside the series, its indicators and its benchmarks shows how near to the
/// best it is.
#[derive(Debug, Drop)]
pub struct Cert {
    /// k, where multipliers are in units of 1 over 10^k and the gap in units of 1 over 10^2k
    pub scale: u8,
    /// the multipliers between each benchmarked year and the next, one fewer than these
    pub u: Vec<i128>,
    /// the bound on what a better series could save
    pub gap: i128,
}
