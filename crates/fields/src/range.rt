// The ranges of content words. Paper: "Item types", "Content".
pub struct Range {}

impl Range {
    // The most trustees.
    pub const TRUSTEES: u32 = 32;

    // The modes of an authorizer.
    pub const IDENTITY: u32 = 1;

    pub const CREDENTIAL: u32 = 2;

    // The last number of a round.
    pub const ROUND: u32 = 15;

    // The low 16 bits of a cryptogram's last word are zero: this is the power of 2.
    pub const CRYPTOGRAM: u32 = 0x0001_0000;
}
