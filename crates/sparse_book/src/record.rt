/// What a sparse book holds for one provider in one quarter.
#[derive(Clone, Copy, PartialEq, Eq, Debug)]
pub struct Record<R: Copy> {
    pub provider: u8,
    pub quarter: u8,
    pub row: R,
}
