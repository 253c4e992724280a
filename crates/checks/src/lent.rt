// What a planning call is lent to plan on: its numbers, both tables and the weights, of any content and any length. Two tables side by side and
// not one of pairs, for so the C surface lends them.

#[derive(Clone, Copy)]
pub struct Tables<'a> {
    pub scans: u64,
    pub settings: u64,
    pub law: u64,
    pub rates: &'a [u32],
    pub distortions: &'a [u32],
    // one for each scan
    pub weights: &'a [u8],
}
