// What marking answers of a sheet that is not refused.

#[derive(Clone, Copy, Debug, PartialEq, Eq)]
pub enum Mark {
    // The paper is the P lines of the finished sheet, then its G lines but for those into removed sorts.
    Right,
    Wrong,
}
