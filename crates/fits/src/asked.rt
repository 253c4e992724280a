// What is asked: the numbers and both tables, of any content and any length.

#[derive(Clone, Copy)]
pub struct Asked<'a> {
    pub scans: u64,
    pub settings: u64,
    pub law: u64,
    pub budget: u64,
    pub rates: &'a [u32],
    pub distortions: &'a [u32],
}
