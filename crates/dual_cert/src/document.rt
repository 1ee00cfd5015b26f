//! A certificate's document.

ghost use Rattle.dual_cert.specs.Document.{IsDocument};

/// A certificate as it was read: its lists have the shape of a certificate and its numbers are in range. Nothing says
/// yet that it is true.
#[derive(Debug, Drop)]
pub struct CertDoc {
    /// the leaf's name: 1 to 32 letters, digits, `_`, `.` or `-`
    pub name: Vec<u8>,
    /// the front of the release that it belongs to, at most 262,144
    pub front: u64,
    /// k from 0 to 15, where multipliers are in units of 1 over 10^k and the gap in units of 1 over 10^2k
    pub scale: u8,
    /// the first year, 1900 to 2200
    pub start: u16,
    /// the quarters' indicators, each from 1 to 10^9, at most 256
    pub ind: Vec<u32>,
    /// the benchmarked years, at least one, counted from 0 at the first year and rising, each with its four quarters
    pub years: Vec<u8>,
    /// their benchmarks, each within 10^12
    pub bench: Vec<i64>,
    /// the quarters' values, one for each indicator, each within 10^16 times its indicator over 10^k
    pub x: Vec<i128>,
    /// the multipliers between each benchmarked year and the next, each within 10^15
    pub u: Vec<i128>,
    /// the gap that the certificate states, 0 to 10^36
    pub gap: i128,
    pub ghost kept: { IsDocument name.items front scale start years.items ind.items bench.items
        x.items u.items gap },
}
