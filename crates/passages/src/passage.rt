// One passage, as its fields; prices are in cents, the time in seconds.
#[derive(Clone, Copy, PartialEq, Eq, Debug)]
pub struct Passage {
    pub gate: u32,
    pub serial: u32,
    pub time: u64,
    // Kept: a number, as the version is: any byte may stand there until a call tests the form and refuses it.
    pub class: u8,
    // The version of the tariff table.
    pub version: u8,
    pub full_price: u32,
    pub discount: u32,
    pub charged: u32,
    pub tag: [u8; 32],
}
